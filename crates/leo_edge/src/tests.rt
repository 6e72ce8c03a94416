use crate::{
    Fetched, Files, HostFiles, HostIn, HostOut, MemFiles, MemSink, MemSource, Next, Put, Sink,
    Source, Words,
};
use std::alloc::{AllocError, Global};
use std::test::Fail;

fn words_of(alloc: Global) -> Result<Words, AllocError> {
    let mut words = Words::new(alloc);
    words.push("leo3")?;
    words.push("p.p")?;
    Ok(words)
}

#[test]
fn words_stand_in_order(rt: HostRuntime) -> Result<(), Fail> {
    let words = words_of(rt.alloc())?;
    assert_eq!(rt; words.len(), 2);
    assert!(rt; !words.is_empty());
    if words.len() == 2 {
        assert_eq!(rt; words.word(1), "p.p");
    }
    Ok(())
}

#[test]
fn memory_files_answer_as_told(rt: HostRuntime) -> Result<(), Fail> {
    let mut files = MemFiles::new(rt.alloc());
    files.add("a", b"abc")?;
    files.add("a", b"other")?;
    files.failing.push(4)?;
    let mut into = Vec::new(rt.alloc());
    assert_eq!(rt; files.fetch("a", 3, &mut into), Fetched::Got);
    assert_eq!(rt; files.fetch("a", 2, &mut into), Fetched::Long);
    assert_eq!(rt; files.fetch("b", 3, &mut into), Fetched::Failed);
    assert_eq!(rt; files.fetch("a", 3, &mut into), Fetched::Failed);
    assert_eq!(rt; files.fetch("a", 3, &mut into), Fetched::Got);
    assert_eq!(rt; into.as_slice(), b"abcabc".as_slice());
    assert_eq!(rt; files.faults, 2);
    Ok(())
}

#[test]
fn memory_sink_takes_parts_and_fails(rt: HostRuntime) -> Result<(), Fail> {
    let mut sink = MemSink::new(rt.alloc());
    assert_eq!(rt; sink.put(b"abc"), Put::Took(3));
    sink.at_most = 2;
    sink.failing.push(3)?;
    assert_eq!(rt; sink.put(b"def"), Put::Took(2));
    assert_eq!(rt; sink.put(b"f"), Put::Failed);
    assert_eq!(rt; sink.put(b"f"), Put::Took(1));
    assert_eq!(rt; sink.taken.as_slice(), b"abcdef".as_slice());
    assert_eq!(rt; sink.faults, 1);
    Ok(())
}

#[test]
fn the_host_has_no_such_file(rt: HostRuntime) -> Result<(), Fail> {
    let mut into = Vec::new(rt.alloc());
    let mut files = HostFiles::new(rt.alloc(), rt.clone()?);
    assert_eq!(rt; files.fetch("/no/such/file", 3, &mut into), Fetched::Failed);
    assert_eq!(rt; files.fetch("/", 3, &mut into), Fetched::Failed);
    assert_eq!(rt;
        files.fetch("/proc/self/status", 3, &mut into),
        Fetched::Long
    );
    assert_eq!(rt; into.len(), 0);
    assert_eq!(rt;
        files.fetch("/proc/self/status", 1 << 20, &mut into),
        Fetched::Got
    );
    assert!(rt; !into.is_empty());
    Ok(())
}

#[test]
fn the_host_takes_output(rt: HostRuntime) -> Result<(), Fail> {
    let mut out = HostOut::new(rt.clone()?);
    assert_eq!(rt; out.put(b"\n"), Put::Took(1));
    Ok(())
}

#[test]
fn memory_source_gives_parts_and_fails(rt: HostRuntime) -> Result<(), Fail> {
    let mut source = MemSource::new(rt.alloc(), b"abcde")?;
    source.at_most = 2;
    source.failing.push(2)?;
    let mut buffer = [0u8; 3];
    assert_eq!(rt; source.next(&mut buffer), Next::Got(2));
    assert_eq!(rt; source.next(&mut buffer), Next::Failed);
    source.at_most = 9;
    assert_eq!(rt; source.next(&mut buffer), Next::Got(3));
    assert_eq!(rt; buffer.as_slice(), b"cde".as_slice());
    source.failing.push(4)?;
    assert_eq!(rt; source.next(&mut buffer), Next::End);
    assert_eq!(rt; source.next(&mut buffer), Next::End);
    assert_eq!(rt; source.faults, 1);
    Ok(())
}

#[test]
fn the_host_gives_input(rt: HostRuntime) -> Result<(), Fail> {
    let mut source = HostIn::new(rt.stdin());
    let mut buffer = [0u8; 8];
    assert_eq!(rt; source.next(&mut buffer), Next::End);
    assert_eq!(rt; source.next(&mut buffer), Next::End);
    Ok(())
}
