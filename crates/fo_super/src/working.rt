//! Members, worked: what is due has its outcome, and is kept where that is the outcome.

ghost use Rattle.std.specs.Prelude.{◌≡◌, ◌≤◌, ◌<◌, ◌++◌, ◌∷◌, [], ℕ, List, OnOk, IfOk, Some, length, map, slice_get, flat_map};
ghost use Rattle.std.specs.Bool.{Decides};
ghost use Rattle.std.specs.List.{AllByRecursion};
ghost use Rattle.fo_text.specs.declared.problem.FoClause.{FoClause};
ghost use Rattle.fo_text.specs.Words.{most_number};
ghost use Rattle.fo_replay.specs.Instances.{as_terms};
ghost use Rattle.fo_super.specs.declared.outcomes.FoOutcome.TheVariants as variant;
ghost use Rattle.fo_super.specs.Conclusions.{IsDue};
ghost use Rattle.fo_super.specs.Members.{meetings};
ghost use Rattle.fo_super.specs.Notes.{AreMoreNotes, AreNotes};
ghost use Rattle.fo_super.specs.Passives.{ArePartners, IsFrontOf};
ghost use Rattle.fo_super.specs.Runs.{origin_of, IsFit};
ghost use Rattle.fo_super.specs.Sifting.{alone, AreSifted};
ghost use Rattle.fo_super.specs.Turns.{concluded, Works};
ghost use Rattle.fo_super.specs.Viewing.{member_of};

use crate::candidates::{list_alone, list_meeting};
use crate::deciding::outcome;
use crate::member::FoMember;
use crate::members::due;
use crate::notes::FoNotes;
use crate::outcomes::FoOutcome;
use crate::resolving::FoResolved;
use crate::state::FoOrigin;
use fo_text::problem::{FoClause, FoProblem};
use sqlite_items::Items;
use std::alloc::{AllocError, Global};

/// A copy of a member.
fn member_copy(alloc: Global, member: &FoMember) -> Result<FoMember, AllocError>
    ensures { IfOk result (λ m. m ≡ member.now) }
{
    match member {
        FoMember::Resolve { clause, literal } => Ok(FoMember::Resolve {
            clause: *clause,
            literal: *literal,
        }),
        FoMember::Factor {
            clause,
            first,
            first_side,
            second,
            second_side,
        } => Ok(FoMember::Factor {
            clause: *clause,
            first: *first,
            first_side: *first_side,
            second: *second,
            second_side: *second_side,
        }),
        FoMember::Superpose {
            from,
            literal,
            side,
            into,
            place,
            place_side,
            path,
        } => {
            let path = Items::from_slice(alloc, path.as_slice())?;
            Ok(FoMember::Superpose {
                from: *from,
                literal: *literal,
                side: *side,
                into: *into,
                place: *place,
                place_side: *place_side,
                path,
            })
        }
    }
}

/// Keeps a conclusion with its origin. Where it answers an error, what was added stays.
fn keep(
    alloc: Global,
    member: &FoMember,
    found: FoResolved,
    clauses: &mut Items<FoClause>,
    origins: &mut Items<FoOrigin>,
    notes: &mut FoNotes,
) -> Result<(), AllocError>
    requires few { length found.conclusion.lits ≤ most_number }
    requires noted { AreNotes notes.old clauses.old }
    ensures clauses { OnOk result (clauses.new ≡ clauses.old ++ found.conclusion ∷ []) }
    ensures origins { OnOk result (map origin_of origins.new ≡ map origin_of origins.old ++ concluded (member_of member.now) found.instance.vars (as_terms found.terms) ∷ []) }
    ensures noted { OnOk result (AreNotes notes.new clauses.new) }
    ensures more_clauses { IsFrontOf clauses.old clauses.new }
    ensures more_origins { IsFrontOf origins.old origins.new }
    ensures more_notes { AreMoreNotes notes.old notes.new }
{
    let member = member_copy(alloc, member)?;
    notes.push(alloc, &found.conclusion)?;
    let FoResolved {
        terms,
        instance,
        conclusion,
    } = found;
    let vars = instance.vars;
    clauses.push(conclusion)?;
    origins.push(FoOrigin::Concluded {
        member,
        vars,
        terms,
    })?;
    Ok(())
}

/// Whether the outcome is that a clause is kept.
fn is_kept(outcome: FoOutcome) -> bool
    ensures { Decides result (outcome ≡ variant.Kept) }
{
    match outcome {
        FoOutcome::Kept => true,
        FoOutcome::Tautology => false,
        FoOutcome::Room => false,
        FoOutcome::Heavy => false,
        FoOutcome::Copy(_) => false,
        FoOutcome::Subsumed(_) => false,
    }
}

/// Takes in what is due: it is kept where that is its outcome.
fn take_in(
    alloc: Global,
    problem: &FoProblem,
    member: &FoMember,
    found: FoResolved,
    clauses: &mut Items<FoClause>,
    origins: &mut Items<FoOrigin>,
    notes: &mut FoNotes,
) -> Result<(), AllocError>
    requires due { IsDue problem.now.sorts problem.now.syms clauses.old (member_of member.now) found.instance.vars (as_terms found.terms) found.instance found.conclusion }
    requires noted { AreNotes notes.old clauses.old }
    ensures worked { OnOk result (Works problem.now (member_of member.now ∷ []) clauses.old (map origin_of origins.old) clauses.new (map origin_of origins.new)) }
    ensures noted { OnOk result (AreNotes notes.new clauses.new) }
    ensures more_clauses { IsFrontOf clauses.old clauses.new }
    ensures more_origins { IsFrontOf origins.old origins.new }
    ensures more_notes { AreMoreNotes notes.old notes.new }
{
    let decided = outcome(
        alloc,
        problem.syms.as_slice(),
        clauses.as_slice(),
        notes,
        &found.conclusion,
        problem.weight,
        &found.instance,
    )?;
    if !is_kept(decided) {
        return Ok(());
    }
    keep(alloc, member, found, clauses, origins, notes)?;
    Ok(())
}

/// Works a member.
fn work(
    alloc: Global,
    problem: &FoProblem,
    member: &FoMember,
    clauses: &mut Items<FoClause>,
    origins: &mut Items<FoOrigin>,
    notes: &mut FoNotes,
) -> Result<(), AllocError>
    requires fit { AllByRecursion (IsFit problem.now.syms) clauses.old }
    requires noted { AreNotes notes.old clauses.old }
    ensures worked { OnOk result (Works problem.now (member_of member.now ∷ []) clauses.old (map origin_of origins.old) clauses.new (map origin_of origins.new)) }
    ensures noted { OnOk result (AreNotes notes.new clauses.new) }
    ensures more_clauses { IsFrontOf clauses.old clauses.new }
    ensures more_origins { IsFrontOf origins.old origins.new }
    ensures more_notes { AreMoreNotes notes.old notes.new }
{
    let syms = problem.syms.as_slice();
    match due(alloc, problem.sorts, syms, clauses.as_slice(), member)? {
        None => Ok(()),
        Some(found) => {
            take_in(alloc, problem, member, found, clauses, origins, notes)?;
            Ok(())
        }
    }
}

/// Works members, one after the other. Where it answers an error, what was added stays.
fn work_all(
    alloc: Global,
    problem: &FoProblem,
    members: &[FoMember],
    clauses: &mut Items<FoClause>,
    origins: &mut Items<FoOrigin>,
    notes: &mut FoNotes,
) -> Result<(), AllocError>
    requires fit { AllByRecursion (IsFit problem.now.syms) clauses.old }
    requires noted { AreNotes notes.old clauses.old }
    ensures worked { OnOk result (Works problem.now (map member_of members.now) clauses.old (map origin_of origins.old) clauses.new (map origin_of origins.new)) }
    ensures fit { OnOk result (AllByRecursion (IsFit problem.now.syms) clauses.new) }
    ensures noted { OnOk result (AreNotes notes.new clauses.new) }
    ensures more_clauses { IsFrontOf clauses.old clauses.new }
    ensures more_origins { IsFrontOf origins.old origins.new }
    ensures more_notes { AreMoreNotes notes.old notes.new }
{
    for member in members {
        work(alloc, problem, member, clauses, origins, notes)?;
    }
    Ok(())
}

/// The members of the given clause alone.
fn listed_alone(
    alloc: Global,
    given: u32,
    clauses: &[FoClause],
) -> Result<Items<FoMember>, AllocError>
    requires given { given < length clauses.now }
    requires fit { AllByRecursion (λ c. length c.lits ≤ most_number) clauses.now }
    ensures { IfOk result (λ ms. (c : FoClause) → slice_get clauses.now given ≡ Some c → AreSifted clauses.now (alone given c.lits) (map member_of ms)) }
{
    let mut members = Items::new(alloc);
    list_alone(given, &clauses[given as usize], &mut members)?;
    Ok(members)
}

/// The members of the given clause with a partner.
fn listed_meeting(
    alloc: Global,
    given: u32,
    number: u32,
    clauses: &[FoClause],
) -> Result<Items<FoMember>, AllocError>
    requires given { given < length clauses.now }
    requires number { number < length clauses.now }
    requires fit { AllByRecursion (λ c. length c.lits ≤ most_number) clauses.now }
    ensures { IfOk result (λ ms. (c d : FoClause) → slice_get clauses.now given ≡ Some c → slice_get clauses.now number ≡ Some d → AreSifted clauses.now (meetings given c.lits (number, d)) (map member_of ms)) }
{
    let mut members = Items::new(alloc);
    let clause = &clauses[given as usize];
    let partner = &clauses[number as usize];
    list_meeting(alloc, given, clause, number, partner, &mut members)?;
    Ok(members)
}

/// Works the members of the given clause alone. Where it answers an error, what was added stays.
fn work_alone(
    alloc: Global,
    problem: &FoProblem,
    given: u32,
    clauses: &mut Items<FoClause>,
    origins: &mut Items<FoOrigin>,
    notes: &mut FoNotes,
) -> Result<(), AllocError>
    requires given { given < length clauses.old }
    requires fit { AllByRecursion (IsFit problem.now.syms) clauses.old }
    requires noted { AreNotes notes.old clauses.old }
    ensures worked { OnOk result ((c : FoClause) → slice_get clauses.old given ≡ Some c → Works problem.now (alone given c.lits) clauses.old (map origin_of origins.old) clauses.new (map origin_of origins.new)) }
    ensures fit { OnOk result (AllByRecursion (IsFit problem.now.syms) clauses.new) }
    ensures noted { OnOk result (AreNotes notes.new clauses.new) }
    ensures more_clauses { IsFrontOf clauses.old clauses.new }
    ensures more_origins { IsFrontOf origins.old origins.new }
    ensures more_notes { AreMoreNotes notes.old notes.new }
{
    let members = listed_alone(alloc, given, clauses.as_slice())?;
    work_all(alloc, problem, members.as_slice(), clauses, origins, notes)?;
    Ok(())
}

/// Works the members of the given clause with a partner. Where it answers an error, what was added
/// stays.
fn work_meeting(
    alloc: Global,
    problem: &FoProblem,
    given: u32,
    number: u32,
    clauses: &mut Items<FoClause>,
    origins: &mut Items<FoOrigin>,
    notes: &mut FoNotes,
) -> Result<(), AllocError>
    requires given { given < length clauses.old }
    requires number { number < length clauses.old }
    requires fit { AllByRecursion (IsFit problem.now.syms) clauses.old }
    requires noted { AreNotes notes.old clauses.old }
    ensures worked { OnOk result ((c d : FoClause) → slice_get clauses.old given ≡ Some c → slice_get clauses.old number ≡ Some d → Works problem.now (meetings given c.lits (number, d)) clauses.old (map origin_of origins.old) clauses.new (map origin_of origins.new)) }
    ensures fit { OnOk result (AllByRecursion (IsFit problem.now.syms) clauses.new) }
    ensures noted { OnOk result (AreNotes notes.new clauses.new) }
    ensures more_clauses { IsFrontOf clauses.old clauses.new }
    ensures more_origins { IsFrontOf origins.old origins.new }
    ensures more_notes { AreMoreNotes notes.old notes.new }
{
    let members = listed_meeting(alloc, given, number, clauses.as_slice())?;
    work_all(alloc, problem, members.as_slice(), clauses, origins, notes)?;
    Ok(())
}

/// Works the members of the given clause with partners. Where it answers an error, what was added stays.
fn work_meetings(
    alloc: Global,
    problem: &FoProblem,
    given: u32,
    partners: &[u32],
    clauses: &mut Items<FoClause>,
    origins: &mut Items<FoOrigin>,
    notes: &mut FoNotes,
) -> Result<(), AllocError>
    requires given { given < length clauses.old }
    requires partners { AllByRecursion (λ n. n < length clauses.old) partners.now }
    requires fit { AllByRecursion (IsFit problem.now.syms) clauses.old }
    requires noted { AreNotes notes.old clauses.old }
    ensures worked { OnOk result ((c : FoClause) (ps : List (ℕ × FoClause)) → slice_get clauses.old given ≡ Some c → ArePartners clauses.old partners.now ps → Works problem.now (flat_map (meetings given c.lits) ps) clauses.old (map origin_of origins.old) clauses.new (map origin_of origins.new)) }
    ensures fit { OnOk result (AllByRecursion (IsFit problem.now.syms) clauses.new) }
    ensures noted { OnOk result (AreNotes notes.new clauses.new) }
    ensures more_clauses { IsFrontOf clauses.old clauses.new }
    ensures more_origins { IsFrontOf origins.old origins.new }
    ensures more_notes { AreMoreNotes notes.old notes.new }
{
    for number in partners {
        work_meeting(alloc, problem, given, *number, clauses, origins, notes)?;
    }
    Ok(())
}

/// Works the members of a turn. Where it answers an error, what was added stays.
pub(crate) fn work_turn(
    alloc: Global,
    problem: &FoProblem,
    given: u32,
    partners: &[u32],
    clauses: &mut Items<FoClause>,
    origins: &mut Items<FoOrigin>,
    notes: &mut FoNotes,
) -> Result<(), AllocError>
    requires given { given < length clauses.old }
    requires partners { AllByRecursion (λ n. n < length clauses.old) partners.now }
    requires fit { AllByRecursion (IsFit problem.now.syms) clauses.old }
    requires noted { AreNotes notes.old clauses.old }
    ensures worked { OnOk result ((c : FoClause) (ps : List (ℕ × FoClause)) → slice_get clauses.old given ≡ Some c → ArePartners clauses.old partners.now ps → Works problem.now (alone given c.lits ++ flat_map (meetings given c.lits) ps) clauses.old (map origin_of origins.old) clauses.new (map origin_of origins.new)) }
    ensures fit { OnOk result (AllByRecursion (IsFit problem.now.syms) clauses.new) }
    ensures noted { OnOk result (AreNotes notes.new clauses.new) }
    ensures more_clauses { IsFrontOf clauses.old clauses.new }
    ensures more_origins { IsFrontOf origins.old origins.new }
    ensures more_notes { AreMoreNotes notes.old notes.new }
{
    work_alone(alloc, problem, given, clauses, origins, notes)?;
    work_meetings(alloc, problem, given, partners, clauses, origins, notes)?;
    Ok(())
}
