//! The files of a problem in reading order, and the statements that are kept of them.

ghost use Rattle.std.specs.Prelude.{◌≡◌, ◌≢◌, ◌<◌, ◌≤◌, ◌++◌, ◌∷◌, [], false, map, ℕ, List, OnOk, IfOk, IfErr};
ghost use Rattle.leo_problem.specs.declared.refusal.LoadRefusal.TheVariants.{Memory};
ghost use Rattle.leo_problem.specs.Gathering.{Gathers, GathersStatements, gathered, refused, is_include, joined, kept_in};
ghost use Rattle.leo_problem.specs.Gathering as gathering;
ghost use Rattle.leo_problem.specs.Loading.{IsFault};
ghost use Rattle.leo_problem.specs.Pieces.{KeepsMore, IsRefusedStatement, Includes, IsRefusedInclude};

use crate::folders::joined;
use crate::gathered::{Counts, Kept};
use crate::reading::{fetch, statements};
use crate::refusal::{LoadRefusal, What, refused};
use crate::selecting::append_selected;
use leo_edge::Files;
use leo_items::Items;
use leo_syntax::Statement;
use std::alloc::{AllocError, Global};
use std::marker::Model;

/// How many files a problem may have.
const MOST_FILES: u32 = 64;

/// How many levels of includes may stand below the problem's file.
const MOST_LEVELS: u32 = 8;

/// A file: the folder in which its includes are looked for, how many levels of includes lead to it,
/// and its name.
#[derive(Drop)]
pub struct Place<'a> {
    pub folder: &'a [u8],
    pub level: u32,
    pub file: &'a [u8],
}

impl<'a> Model for Place<'a> {
    ghost use Rattle.leo_problem.specs.Places.{Place as PlaceValue};

    ghost Value = { PlaceValue };

    ghost view = { λ p. record { folder = p.folder.now; level = p.level; file = p.file.now } };
}

/// Appends a statement of the file of that name.
fn keep(
    alloc: Global,
    kept: &mut Vec<Kept>,
    file: &[u8],
    statement: Statement,
) -> Result<(), AllocError>
    ensures { OnOk result (kept.new.items ≡ kept.old.items ++ record { file = file.now; statement = statement } ∷ []) }
{
    let file = Items::from_slice(alloc, file)?;
    kept.push(Kept { file, statement })?;
    Ok(())
}

/// All statements of the file of that name.
pub fn keep_all(alloc: Global, file: &[u8], list: Vec<Statement>) -> Result<Vec<Kept>, AllocError>
    ensures { IfOk result (λ ks. ks.items ≡ map (kept_in file.now) list.items) }
{
    let mut kept = Vec::new(alloc);
    for statement in list {
        keep(alloc, &mut kept, file, statement)?;
    }
    Ok(kept)
}

/// What a file gives: it is read, and then its includes, in order.
#[cycle(files)]
pub fn gather<F: Files>(
    alloc: Global,
    files: &mut F,
    place: &Place<'_>,
    counts: &mut Counts,
) -> Result<Vec<Kept>, LoadRefusal>
    requires level { place.now.level ≤ 8 }
    requires room { counts.old.files < 64 }
    ensures gathered { IfOk result (λ ks. Gathers (F.content files.old) place.now.folder place.now.level place.now.file counts.old (gathered ks.items counts.new)) }
    ensures refusal { IfErr result (λ r. r ≢ Memory → Gathers (F.content files.old) place.now.folder place.now.level place.now.file counts.old (refused r)) }
    ensures fault { IfErr result (IsFault (F.faults files.old) (F.faults files.new) (F.failed files.new)) }
    ensures stays { (n : List ℕ) → F.content files.new n ≡ F.content files.old n }
    ensures never_falls { F.faults files.old ≤ F.faults files.new }
{
    let text = fetch(alloc, files, place.file, *counts)?;
    let list = statements(alloc, place.file, &text)?;
    *counts = counts.with_file(text.len());
    let kept = gather_statements(alloc, files, place, counts, list)?;
    Ok(kept)
}

#[cycle(files)]
fn gather_statements<F: Files>(
    alloc: Global,
    files: &mut F,
    place: &Place<'_>,
    counts: &mut Counts,
    list: Vec<Statement>,
) -> Result<Vec<Kept>, LoadRefusal>
    requires { place.now.level ≤ 8 }
    ensures gathered { IfOk result (λ ks. GathersStatements (F.content files.old) place.now.folder place.now.level place.now.file list.items counts.old (gathered ks.items counts.new)) }
    ensures refusal { IfErr result (λ r. r ≢ Memory → GathersStatements (F.content files.old) place.now.folder place.now.level place.now.file list.items counts.old (refused r)) }
    ensures fault { IfErr result (IsFault (F.faults files.old) (F.faults files.new) (F.failed files.new)) }
    ensures stays { (n : List ℕ) → F.content files.new n ≡ F.content files.old n }
    ensures never_falls { F.faults files.old ≤ F.faults files.new }
{
    let mut kept = Vec::new(alloc);
    for statement in list {
        gather_statement(alloc, files, place, counts, statement, &mut kept)?;
    }
    Ok(kept)
}

#[cycle(files)]
fn gather_statement<F: Files>(
    alloc: Global,
    files: &mut F,
    place: &Place<'_>,
    counts: &mut Counts,
    statement: Statement,
    kept: &mut Vec<Kept>,
) -> Result<(), LoadRefusal>
    requires { place.now.level ≤ 8 }
    ensures keeps { OnOk result (KeepsMore (F.content files.old) place.now.folder place.now.level place.now.file statement counts.old counts.new kept.old.items kept.new.items) }
    ensures refusal { IfErr result (λ r. r ≢ Memory → IsRefusedStatement (F.content files.old) place.now.folder place.now.level place.now.file statement counts.old r) }
    ensures fault { IfErr result (IsFault (F.faults files.old) (F.faults files.new) (F.failed files.new)) }
    ensures stays { (n : List ℕ) → F.content files.new n ≡ F.content files.old n }
    ensures never_falls { F.faults files.old ≤ F.faults files.new }
{
    match statement {
        Statement::Include {
            file,
            file_byte,
            names,
            ..
        } => {
            let inner = include(alloc, files, place, counts, file.as_slice(), file_byte)?;
            append_selected(kept, inner, &names)?;
            Ok(())
        }
        other => {
            keep(alloc, kept, place.file, other)?;
            Ok(())
        }
    }
}

/// What the file of an include gives, whose name stands at that byte.
#[cycle(files)]
fn include<F: Files>(
    alloc: Global,
    files: &mut F,
    place: &Place<'_>,
    counts: &mut Counts,
    name: &[u8],
    name_byte: u32,
) -> Result<Vec<Kept>, LoadRefusal>
    requires { place.now.level ≤ 8 }
    ensures gathered { IfOk result (λ ks. Includes (F.content files.old) place.now name.now counts.old (gathered ks.items counts.new)) }
    ensures refusal { IfErr result (λ r. r ≢ Memory → IsRefusedInclude (F.content files.old) place.now name.now name_byte counts.old r) }
    ensures fault { IfErr result (IsFault (F.faults files.old) (F.faults files.new) (F.failed files.new)) }
    ensures stays { (n : List ℕ) → F.content files.new n ≡ F.content files.old n }
    ensures never_falls { F.faults files.old ≤ F.faults files.new }
{
    if place.level >= MOST_LEVELS || counts.files >= MOST_FILES {
        return Err(refused(alloc, place.file, name_byte, What::Includes));
    }
    let file = joined(alloc, place.folder, name)?;
    let inner = Place {
        folder: place.folder,
        level: place.level + 1,
        file: file.as_slice(),
    };
    let kept = gather(alloc, files, &inner, counts)?;
    Ok(kept)
}
