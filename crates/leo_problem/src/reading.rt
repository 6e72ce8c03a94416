//! One file: its content, and its statements.

ghost use Rattle.std.specs.Prelude.{◌≡◌, ◌≢◌, ◌≤◌, ℕ, List, length, IfOk, IfErr};
ghost use Rattle.leo_problem.specs.declared.refusal.LoadRefusal.TheVariants.{Memory};
ghost use Rattle.leo_problem.specs.Gathering.{IsContent};
ghost use Rattle.leo_problem.specs.Loading.{IsFault};
ghost use Rattle.leo_problem.specs.Pieces.{IsRefusedFile, IsNoFault};
ghost use Rattle.leo_lex.specs.Cut.{AreTokens};
ghost use Rattle.leo_problem.specs.Texts.{AreStatements, RefusesText, text_refusal, lex_refusal};

use crate::gathered::Counts;
use crate::refusal::{LoadRefusal, What, refused};
use leo_edge::{Fetched, Files};
use leo_lex::{LexRefusal, Token, tokens};
use leo_syntax::{ReadRefusal, Statement, read};
use std::alloc::Global;
use std::str::from_utf8;

/// The content of a file, where so much was read before it.
pub fn fetch<F: Files>(
    alloc: Global,
    files: &mut F,
    file: &[u8],
    counts: Counts,
) -> Result<Vec<u8>, LoadRefusal>
    ensures content { IfOk result (λ text. IsContent (F.content files.old file.now) counts text.items) }
    ensures refusal { IfErr result (λ r. r ≢ Memory → IsRefusedFile (F.content files.old) file.now counts r) }
    ensures fault { IfErr result (IsFault (F.faults files.old) (F.faults files.new) (F.failed files.new)) }
    ensures stays { (n : List ℕ) → F.content files.new n ≡ F.content files.old n }
    ensures never_falls { F.faults files.old ≤ F.faults files.new }
{
    // Names in quotes are printable, so that this never fails.
    let Ok(name) = from_utf8(file) else {
        return Err(LoadRefusal::Memory);
    };
    let mut text = Vec::new(alloc);
    match files.fetch(name, counts.room(), &mut text) {
        Fetched::Got => Ok(text),
        Fetched::Long => Err(refused(alloc, file, 0, What::Large)),
        Fetched::Failed => Err(refused(alloc, file, 0, What::ReadFault)),
        Fetched::Memory => Err(LoadRefusal::Memory),
    }
}

fn refused_text(alloc: Global, file: &[u8], refusal: ReadRefusal) -> LoadRefusal
    ensures refusal { result ≢ Memory → result ≡ text_refusal file.now refusal }
    ensures no_fault { IsNoFault result }
{
    match refusal {
        ReadRefusal::Syntax { byte } => refused(alloc, file, byte, What::Syntax),
        ReadRefusal::Unsupported { byte, form } => {
            refused(alloc, file, byte, What::Unsupported(form))
        }
        ReadRefusal::Deep { byte } => refused(alloc, file, byte, What::Deep),
        ReadRefusal::Memory => LoadRefusal::Memory,
    }
}

fn read_tokens(
    alloc: Global,
    file: &[u8],
    text: &[u8],
    found: &[Token],
) -> Result<Vec<Statement>, LoadRefusal>
    requires short { length text.now ≤ 16777216 }
    requires tokens { AreTokens text.now found.now }
    ensures statements { IfOk result (λ list. AreStatements text.now list.items) }
    ensures refusal { IfErr result (λ r. r ≢ Memory → RefusesText file.now text.now r) }
    ensures no_fault { IfErr result IsNoFault }
{
    match read(alloc, text, found) {
        Ok(list) => Ok(list),
        Err(refusal) => Err(refused_text(alloc, file, refusal)),
    }
}

fn refused_bytes(alloc: Global, file: &[u8], refusal: LexRefusal) -> LoadRefusal
    ensures refusal { result ≢ Memory → result ≡ lex_refusal file.now refusal }
    ensures no_fault { IsNoFault result }
{
    match refusal {
        LexRefusal::Lexical { byte } => refused(alloc, file, byte, What::Lexical),
        LexRefusal::Memory => LoadRefusal::Memory,
    }
}

/// The statements of a text.
pub fn statements(alloc: Global, file: &[u8], text: &[u8]) -> Result<Vec<Statement>, LoadRefusal>
    requires { length text.now ≤ 16777216 }
    ensures statements { IfOk result (λ list. AreStatements text.now list.items) }
    ensures refusal { IfErr result (λ r. r ≢ Memory → RefusesText file.now text.now r) }
    ensures no_fault { IfErr result IsNoFault }
{
    match tokens(alloc, text) {
        Ok(found) => {
            let list = read_tokens(alloc, file, text, &found)?;
            Ok(list)
        }
        Err(refusal) => Err(refused_bytes(alloc, file, refusal)),
    }
}
