//! Puts texts to a sink, line by line.
ghost use Rattle.std.specs.Prelude.{◌≡◌, ◌++◌, ◌<◌, ◌≤◌, length, OnOk, OnErr};
ghost use Rattle.std.specs.Option.{option_map};
ghost use Rattle.leo_edge.specs.Outside.{HasRisen};
ghost use Rattle.leo_top.specs.Answers.{IsCut};

use leo_edge::{Put, Sink};

/// The sink took no more.
#[derive(Debug, Drop)]
pub struct SinkFailed;

// Puts the piece; where a part of it was taken, the rest is put again.
fn put_piece<O: Sink>(out: &mut O, piece: &[u8]) -> Result<(), SinkFailed>
    ensures never_falls { O.faults out.old ≤ O.faults out.new }
    ensures ok { OnOk result (O.taken out.new ≡ option_map (λ bytes. bytes ++ piece.now) (O.taken out.old)) }
    ensures cut { OnErr result (IsCut piece.now (O.taken out.old) (O.taken out.new)) }
    ensures failed { OnErr result (HasRisen (O.faults out.old) (O.faults out.new)) }
{
    let mut done = 0;
    while done < piece.len() {
        match out.put(&piece[done..]) {
            Put::Took(count) => done += count,
            Put::Failed => return Err(SinkFailed),
        }
    }
    Ok(())
}

// The length of the first line, with its line feed.
fn line_length(text: &[u8]) -> usize
    requires { 0 < length text.now }
    ensures positive { 0 < result }
    ensures within { result ≤ length text.now }
{
    match text.iter().position(|b| *b == b'\n') {
        Some(at) => at + 1,
        None => text.len(),
    }
}

/// Puts the text, each line as a piece of its own. After a failure nothing more is put.
pub fn put_text<O: Sink>(out: &mut O, text: &[u8]) -> Result<(), SinkFailed>
    ensures never_falls { O.faults out.old ≤ O.faults out.new }
    ensures ok { OnOk result (O.taken out.new ≡ option_map (λ bytes. bytes ++ text.now) (O.taken out.old)) }
    ensures cut { OnErr result (IsCut text.now (O.taken out.old) (O.taken out.new)) }
    ensures failed { OnErr result (HasRisen (O.faults out.old) (O.faults out.new)) }
{
    let mut done = 0;
    while done < text.len() {
        let rest = &text[done..];
        let length = line_length(rest);
        put_piece(out, &rest[..length])?;
        done += length;
    }
    Ok(())
}
