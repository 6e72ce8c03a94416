//! Loads small problems from files in memory, and says what each asks for and what it answers.
#![tactic(auto)]

ghost use Rattle.std.specs.Prelude.{◌≡◌, ◌≤◌};

mod asked;

use asked::Asked;
use leo_items::Items;
use leo_problem::{LoadRefusal, Problem, generate, load};
use std::alloc::AllocError;
use std::process::ExitCode;
use std::str::from_utf8;

/// How many includes make a file too many.
const INCLUDES: u32 = 64;

fn text_of(bytes: &Items<u8>) -> &str {
    match from_utf8(bytes.as_slice()) {
        Ok(text) => text,
        Err(_) => "?",
    }
}

fn tell_problem(rt: &impl Print, problem: &Problem) {
    let hypotheses = problem.hyps.len();
    let statements = problem.statements;
    let conjecture = problem.conjecture;
    let _ = println!(rt;
        "  {statements} statements, {hypotheses} hypotheses, conjecture: {conjecture}"
    );
    for hypothesis in problem.hyps.as_slice() {
        let file = text_of(&hypothesis.file);
        let name = text_of(&hypothesis.name);
        let role = hypothesis.role;
        let _ = println!(rt; "  {file}: {name}: {role:?}");
    }
}

fn tell_refusal(rt: &impl Print, refusal: &LoadRefusal) {
    match refusal {
        LoadRefusal::Refused { file, byte, what } => {
            let file = text_of(file);
            let _ = println!(rt; "  {file}: byte {byte}: {what:?}");
        }
        LoadRefusal::Memory => {
            let _ = println!(rt; "  no memory");
        }
    }
}

/// Loads a problem, and says what was asked for and what came of it.
fn row(rt: &(impl Print + AllocGlobal), files: &mut Asked, name: &str, root: Option<&str>) {
    let answer = load(rt.alloc(), files, name, root);
    for asked in files.names.as_slice() {
        let asked = asked.as_str();
        let _ = println!(rt; "  asks for {asked}");
    }
    match answer {
        Ok(problem) => tell_problem(rt, &problem),
        Err(refusal) => tell_refusal(rt, &refusal),
    }
}

/// Loads a problem of one file.
fn one_file(rt: &(impl Print + AllocGlobal), text: &str) -> Result<(), AllocError> {
    let _ = println!(rt; "{text}");
    let mut files = Asked::new(rt.alloc());
    files.files.add("x.p", text.as_bytes())?;
    row(rt, &mut files, "x.p", None);
    Ok(())
}

fn refusals(rt: &(impl Print + AllocGlobal)) -> Result<(), AllocError> {
    one_file(rt, "thf(a,conjecture,$true).thf(b,conjecture,$true).")?;
    one_file(rt, "thf(a,axiom,p).")?;
    one_file(rt, "thf(a,axiom,X).")?;
    one_file(rt, "thf(a,plain,$true).")?;
    one_file(rt, "thf(a,axiom,p).thf(b,plain,$true).")?;
    one_file(rt, "thf(a,axiom,1).")?;
    Ok(())
}

fn typings(rt: &(impl Print + AllocGlobal)) -> Result<(), AllocError> {
    one_file(rt, "thf(a,type,p:$o).thf(b,type,p:$i).")?;
    one_file(rt, "thf(a,type,p:$o).thf(b,type,p:$oType).")?;
    one_file(rt, "thf(a,type,k:$i).thf(b,axiom,k).")?;
    one_file(rt, "thf(a,type,p:s).thf(b,type,s:$o).thf(c,type,s:$tType).")?;
    one_file(rt, "thf(a,axiom,p).thf(b,type,p:$o).thf(c,conjecture,p).")?;
    Ok(())
}

const SET: &[u8] = b"thf(a,type,a: $i).
thf(inter_type,type,inter: ( $i > $o ) > ( $i > $o ) > $i > $o).
thf(subset_type,type,subset: ( $i > $o ) > ( $i > $o ) > $o).
thf(inter,definition,( inter = ( ^ [A: $i > $o,B: $i > $o,X: $i] : ( ( A @ X ) & ( B @ X ) ) ) )).
thf(sub,definition,( subset = ( ^ [A: $i > $o,B: $i > $o] : ( ! [X: $i] : ( ( A @ X ) => ( B @ X ) ) ) ) )).
";

const ON_SETS: &[u8] = b"include('set.ax').
thf(c,conjecture,! [A: $i > $o,B: $i > $o] : ( subset @ ( inter @ A @ B ) @ A )).
";

const SOME_OF_SETS: &[u8] = b"include('set.ax',[subset_type,sub]).";

fn on_sets(rt: &(impl Print + AllocGlobal)) -> Result<(), AllocError> {
    let _ = println!(rt; "a conjecture on sets");
    let mut files = Asked::new(rt.alloc());
    files.files.add("w/set.ax", SET)?;
    files.files.add("w/set.p", ON_SETS)?;
    row(rt, &mut files, "w/set.p", None);
    Ok(())
}

fn some_of_sets(rt: &(impl Print + AllocGlobal)) -> Result<(), AllocError> {
    let _ = println!(rt; "an include with names, in a root");
    let mut files = Asked::new(rt.alloc());
    files.files.add("lib/set.ax", SET)?;
    files.files.add("w/set.p", SOME_OF_SETS)?;
    row(rt, &mut files, "w/set.p", Some("lib"));
    Ok(())
}

fn itself(rt: &(impl Print + AllocGlobal)) -> Result<(), AllocError> {
    let _ = println!(rt; "a file that includes itself");
    let mut files = Asked::new(rt.alloc());
    files.files.add("s.p", b"include('s.p').")?;
    row(rt, &mut files, "s.p", None);
    Ok(())
}

fn missing(rt: &(impl Print + AllocGlobal)) -> Result<(), AllocError> {
    let _ = println!(rt; "an include that is not there");
    let mut files = Asked::new(rt.alloc());
    files
        .files
        .add("a/b/c.p", b"thf(a,axiom,p).include('no.ax').")?;
    row(rt, &mut files, "a/b/c.p", None);
    Ok(())
}

fn many(rt: &(impl Print + AllocGlobal)) -> Result<(), AllocError> {
    let _ = println!(rt; "a file with {INCLUDES} includes");
    let mut text = Vec::new(rt.alloc());
    for _ in 0..INCLUDES {
        text.extend_from_slice(b"include('a').")?;
    }
    let mut files = Asked::new(rt.alloc());
    files.files.add("m.p", &text)?;
    files.files.add("a", b"")?;
    files.is_quiet = true;
    row(rt, &mut files, "m.p", None);
    Ok(())
}

/// Loads a name where there are no files.
fn no_file(rt: &(impl Print + AllocGlobal), name: &str) {
    let _ = println!(rt; "no file: {name}");
    let mut files = Asked::new(rt.alloc());
    row(rt, &mut files, name, None);
}

/// Shows the generated text of that number.
fn shown(rt: &(impl Print + AllocGlobal), count: u32) -> Result<(), AllocError>
    requires { (1 ≤ count) × (count ≤ 100000) }
{
    let text = generate(rt.alloc(), count)?;
    if let Ok(text) = from_utf8(&text) {
        let _ = print!(rt; "{text}");
    }
    Ok(())
}

fn generated(rt: &(impl Print + AllocGlobal)) -> Result<(), AllocError> {
    shown(rt, 2)?;
    no_file(rt, "gen:1");
    no_file(rt, "gen:0");
    no_file(rt, "gen:01");
    no_file(rt, "gen:100001");
    one_file(rt, "include('gen:1').")?;
    Ok(())
}

fn rows(rt: &(impl Print + AllocGlobal)) -> Result<(), AllocError> {
    refusals(rt)?;
    typings(rt)?;
    on_sets(rt)?;
    some_of_sets(rt)?;
    itself(rt)?;
    missing(rt)?;
    many(rt)?;
    generated(rt)?;
    Ok(())
}

fn main(rt: HostRuntime) -> ExitCode {
    match rows(&rt) {
        Ok(()) => ExitCode::SUCCESS,
        Err(_) => ExitCode::FAILURE,
    }
}
