//! Rules as they are read.

ghost use Rattle.std.specs.Prelude.{◌≡◌, ◌<◌, ◌^◌, ◌∷◌, List, ℕ, Option, Some, None, IfOk, IfSome, codes};
ghost use Rattle.std.specs.Prelude as spec;
ghost use Rattle.leo_clause.specs.declared.record.Rule.TheVariants as record_of;
ghost use Rattle.leo_tstp.specs.declared.reading.trees.ParsedRule.TheVariants as parsed;
ghost use Rattle.leo_tstp.specs.Read.{IsRuleRead};
ghost use Rattle.leo_tstp.specs.RuleWords.{PassesWords, Reads, end_then, line_word, literal_and_then, middle_then, no_parent_then, one_literal_then, one_parent_then, parent_and_then, two_parents_then};

use crate::reading::patterns::Pattern;
use crate::reading::source::{Reader, is};
use crate::reading::trees::{Parsed, ParsedRule, ROOM, RuleName};
use crate::refusal::Stop;
use crate::rules::{half_word, kind_word, side_word};
use leo_clause::{Half, LogicKind, Rule, Side};
use leo_items::Items;

/// Every way in which a literal is taken apart.
const KINDS: [LogicKind; 17] = [
    LogicKind::Not,
    LogicKind::OrT,
    LogicKind::OrF1,
    LogicKind::OrF2,
    LogicKind::AndT1,
    LogicKind::AndT2,
    LogicKind::AndF,
    LogicKind::ImpT,
    LogicKind::ImpF1,
    LogicKind::ImpF2,
    LogicKind::EqT,
    LogicKind::EqF,
    LogicKind::Flip,
    LogicKind::AllT,
    LogicKind::SomeF,
    LogicKind::AllF,
    LogicKind::SomeT,
];

fn kind_of(word: &[u8]) -> Option<LogicKind> {
    for kind in KINDS {
        if is(word, kind_word(kind)) {
            return Some(kind);
        }
    }
    None
}

fn side_of(word: &[u8]) -> Option<Side> {
    if is(word, side_word(Side::Left)) {
        Some(Side::Left)
    } else if is(word, side_word(Side::Right)) {
        Some(Side::Right)
    } else {
        None
    }
}

fn half_of(word: &[u8]) -> Option<Half> {
    if is(word, half_word(Half::One)) {
        Some(Half::One)
    } else if is(word, half_word(Half::Two)) {
        Some(Half::Two)
    } else {
        None
    }
}

/// The rules that a word may name, with their words.
const NAMES: [(&[u8], RuleName); 14] = [
    (b"axiom", RuleName::Axiom),
    (b"convert", RuleName::Convert),
    (b"inst", RuleName::Inst),
    (b"para", RuleName::Para),
    (b"arrange", RuleName::Arrange),
    (b"drop", RuleName::Drop),
    (b"logic", RuleName::Logic),
    (b"bool_ext", RuleName::BoolExt),
    (b"func_ext", RuleName::FuncExt),
    (b"decompose", RuleName::Decompose),
    (b"refl", RuleName::Refl),
    (b"choice", RuleName::Choice),
    (b"factor", RuleName::Factor),
    (b"abbreviate", RuleName::Abbreviate),
];

fn rule_of(word: &[u8]) -> Option<RuleName> {
    for (text, name) in NAMES {
        if is(word, text) {
            return Some(name);
        }
    }
    None
}

fn status_of(name: RuleName) -> &'static [u8] {
    match name {
        RuleName::Abbreviate => b"esa",
        _ => b"thm",
    }
}

impl Reader<'_> {
    /// A rule with its status, what it was applied to, and its parents, up to the end of the line.
    pub(crate) fn rule(&mut self, defines: bool) -> Result<ParsedRule, Stop>
        ensures { IfOk result IsRuleRead }
    {
        let Some(name) = rule_of(self.word()) else {
            return Err(Stop::Refused);
        };
        self.want_rule(name, defines)?;
        self.status(name)?;
        self.applied(name)
    }

    /// Refuses a rule that no line has here: an abbreviation stands behind the type statement of its symbol alone, and
    /// an axiom line takes a hypothesis that stands in the text.
    fn want_rule(&self, name: RuleName, defines: bool) -> Result<(), Stop> {
        let stands = match name {
            RuleName::Abbreviate => defines,
            RuleName::Axiom => !defines && !self.listed.is_empty(),
            _ => !defines,
        };
        if stands { Ok(()) } else { Err(Stop::Refused) }
    }

    fn status(&mut self, name: RuleName) -> Result<(), Stop> {
        self.pass();
        self.take_all(&[b",", b"[", b"status", b"("])?;
        self.take(status_of(name))?;
        self.take_all(&[b")", b",", b"ev"])
    }

    /// What a rule was applied to, and its parents.
    fn applied(&mut self, name: RuleName) -> Result<ParsedRule, Stop>
        ensures { IfOk result IsRuleRead }
    {
        match name {
            RuleName::Axiom => self.assumption(),
            RuleName::Convert => self.conversion(),
            RuleName::Inst => self.instance(),
            RuleName::Para => self.replacement(),
            RuleName::Arrange => self.arrangement(),
            RuleName::Drop => self.dropped(),
            RuleName::Logic => self.taken_apart(),
            RuleName::BoolExt => self.cases(),
            RuleName::FuncExt => self.value(),
            RuleName::Decompose => self.decomposed(),
            RuleName::Refl => self.reflexivity(),
            RuleName::Choice => self.chosen(),
            RuleName::Factor => self.factored(),
            RuleName::Abbreviate => self.abbreviation(),
        }
    }

    fn assumption(&mut self) -> Result<ParsedRule, Stop>
        ensures { IfOk result IsRuleRead }
    {
        self.take(b"(")?;
        let hyp = self.hypothesis()?;
        self.take_all(&[b")", b"]", b",", b"["])?;
        self.take_numbered(b'h', hyp)?;
        self.end()?;
        Ok(ParsedRule::Plain(Rule::Axiom { hyp }))
    }

    /// The number of a hypothesis that stands in the text.
    fn hypothesis(&mut self) -> Result<u64, Stop> {
        let before = self.at;
        let hyp = self.take_number(u64::MAX)?;
        if !self.listed.contains(&hyp) {
            self.at = before;
            return Err(Stop::Refused);
        }
        self.used.insert(hyp)?;
        Ok(hyp)
    }

    fn conversion(&mut self) -> Result<ParsedRule, Stop>
        ensures read { IfOk result IsRuleRead }
        ensures takes { (p : ℕ) (rest : List (List ℕ)) → p < 2 ^ 64 → Reads self.old (one_parent_then p rest) result (parsed.Plain (record_of.Convert p)) self.new rest }
        ensures stays { self.new ≡ record self.old { at = self.new.at } }
    {
        let parent = self.one_parent()?;
        Ok(ParsedRule::Plain(Rule::Convert { parent }))
    }

    fn instance(&mut self) -> Result<ParsedRule, Stop>
        ensures { IfOk result IsRuleRead }
    {
        self.take_all(&[b"(", b"["])?;
        let sigma = self.puts()?;
        self.take_all(&[b"]", b")"])?;
        let parent = self.one_parent()?;
        Ok(ParsedRule::Inst { parent, sigma })
    }

    /// Terms that are put in.
    fn puts(&mut self) -> Result<Vec<Parsed>, Stop> {
        let mut sigma = Vec::new(self.alloc);
        if self.sees(b"]") {
            return Ok(sigma);
        }
        self.put(&mut sigma)?;
        self.further_puts(&mut sigma)?;
        Ok(sigma)
    }

    fn put(&mut self, sigma: &mut Vec<Parsed>) -> Result<(), Stop> {
        self.take_all(&[b"$thf", b"("])?;
        let term = self.term(Pattern::Any, ROOM)?;
        sigma.push(term.term)?;
        self.take(b")")
    }

    fn further_puts(&mut self, sigma: &mut Vec<Parsed>) -> Result<(), Stop> {
        for _ in self.at..self.tokens.len() {
            if !self.sees(b",") {
                return Ok(());
            }
            self.pass();
            self.put(sigma)?;
        }
        Ok(())
    }

    fn replacement(&mut self) -> Result<ParsedRule, Stop>
        ensures { IfOk result IsRuleRead }
    {
        self.take(b"(")?;
        let (lit, side) = self.place()?;
        self.take(b",")?;
        let (place, place_side) = self.place()?;
        self.take_all(&[b",", b"["])?;
        let path = self.path()?;
        self.take_all(&[b"]", b")"])?;
        let (from, target) = self.two_parents()?;
        Ok(ParsedRule::Plain(Rule::Para {
            from,
            lit,
            side,
            target,
            place,
            place_side,
            path,
        }))
    }

    /// A literal and a side of it.
    fn place(&mut self) -> Result<(u32, Side), Stop> {
        let lit = self.literal_number()?;
        self.take(b",")?;
        let Some(side) = side_of(self.word()) else {
            return Err(Stop::Refused);
        };
        self.pass();
        Ok((lit, side))
    }

    fn literal_number(&mut self) -> Result<u32, Stop>
        ensures takes { (i : ℕ) (rest : List (List ℕ)) → i < 2 ^ 32 → Reads self.old (spec.decimal i ∷ rest) result i self.new rest }
        ensures stays { self.new ≡ record self.old { at = self.new.at } }
    {
        let number = self.take_number(u64::from(u32::MAX))?;
        u32::try_from(number).map_err(|_| Stop::Refused)
    }

    fn path(&mut self) -> Result<Items<u8>, Stop> {
        let mut path = Vec::new(self.alloc);
        if !self.sees(b"]") {
            self.path_number(&mut path)?;
            self.further_path(&mut path)?;
        }
        Ok(Items::from_vec(path))
    }

    fn path_number(&mut self, path: &mut Vec<u8>) -> Result<(), Stop> {
        let number = self.take_number(u64::from(u8::MAX))?;
        let Ok(number) = u8::try_from(number) else {
            return Err(Stop::Refused);
        };
        path.push(number)?;
        Ok(())
    }

    fn further_path(&mut self, path: &mut Vec<u8>) -> Result<(), Stop> {
        for _ in self.at..self.tokens.len() {
            if !self.sees(b",") {
                return Ok(());
            }
            self.pass();
            self.path_number(path)?;
        }
        Ok(())
    }

    fn arrangement(&mut self) -> Result<ParsedRule, Stop>
        ensures read { IfOk result IsRuleRead }
        ensures takes { (p : ℕ) (rest : List (List ℕ)) → p < 2 ^ 64 → Reads self.old (one_parent_then p rest) result (parsed.Plain (record_of.Arrange p)) self.new rest }
        ensures stays { self.new ≡ record self.old { at = self.new.at } }
    {
        let parent = self.one_parent()?;
        Ok(ParsedRule::Plain(Rule::Arrange { parent }))
    }

    /// A literal's number in brackets.
    fn one_literal(&mut self) -> Result<u32, Stop>
        ensures takes { (i : ℕ) (rest : List (List ℕ)) → i < 2 ^ 32 → Reads self.old (one_literal_then i rest) result i self.new rest }
        ensures stays { self.new ≡ record self.old { at = self.new.at } }
    {
        self.take(b"(")?;
        let lit = self.literal_number()?;
        self.take(b")")?;
        Ok(lit)
    }

    fn dropped(&mut self) -> Result<ParsedRule, Stop>
        ensures read { IfOk result IsRuleRead }
        ensures takes { (p i : ℕ) (rest : List (List ℕ)) → p < 2 ^ 64 → i < 2 ^ 32 → Reads self.old (one_literal_then i (one_parent_then p rest)) result (parsed.Plain (record_of.Drop p i)) self.new rest }
        ensures stays { self.new ≡ record self.old { at = self.new.at } }
    {
        let lit = self.one_literal()?;
        let parent = self.one_parent()?;
        Ok(ParsedRule::Plain(Rule::Drop { parent, lit }))
    }

    fn decomposed(&mut self) -> Result<ParsedRule, Stop>
        ensures read { IfOk result IsRuleRead }
        ensures takes { (p i : ℕ) (rest : List (List ℕ)) → p < 2 ^ 64 → i < 2 ^ 32 → Reads self.old (one_literal_then i (one_parent_then p rest)) result (parsed.Plain (record_of.Decompose p i)) self.new rest }
        ensures stays { self.new ≡ record self.old { at = self.new.at } }
    {
        let lit = self.one_literal()?;
        let parent = self.one_parent()?;
        Ok(ParsedRule::Plain(Rule::Decompose { parent, lit }))
    }

    /// A literal's number behind a bracket, and the comma behind it.
    fn literal_and(&mut self) -> Result<u32, Stop>
        ensures takes { (i : ℕ) (rest : List (List ℕ)) → i < 2 ^ 32 → Reads self.old (literal_and_then i rest) result i self.new rest }
        ensures stays { self.new ≡ record self.old { at = self.new.at } }
    {
        self.take(b"(")?;
        let lit = self.literal_number()?;
        self.take(b",")?;
        Ok(lit)
    }

    fn taken_apart(&mut self) -> Result<ParsedRule, Stop>
        ensures { IfOk result IsRuleRead }
    {
        let lit = self.literal_and()?;
        let Some(kind) = kind_of(self.word()) else {
            return Err(Stop::Refused);
        };
        self.pass();
        self.take(b")")?;
        let (parent, abbr) = self.parent_and()?;
        Ok(ParsedRule::Plain(Rule::Logic {
            parent,
            lit,
            kind,
            abbr,
        }))
    }

    fn cases(&mut self) -> Result<ParsedRule, Stop>
        ensures { IfOk result IsRuleRead }
    {
        let lit = self.literal_and()?;
        let Some(half) = half_of(self.word()) else {
            return Err(Stop::Refused);
        };
        self.pass();
        self.take(b")")?;
        let parent = self.one_parent()?;
        Ok(ParsedRule::Plain(Rule::BoolExt { parent, lit, half }))
    }

    fn value(&mut self) -> Result<ParsedRule, Stop>
        ensures read { IfOk result IsRuleRead }
        ensures takes { (p i : ℕ) (a : Option ℕ) (rest : List (List ℕ)) → p < 2 ^ 64 → i < 2 ^ 32 → IfSome a (λ q. q < 2 ^ 64) → Reads self.old (one_literal_then i (parent_and_then p a rest)) result (parsed.Plain (record_of.FuncExt p i a)) self.new rest }
        ensures stays { self.new ≡ record self.old { at = self.new.at } }
    {
        let lit = self.one_literal()?;
        let (parent, abbr) = self.parent_and()?;
        Ok(ParsedRule::Plain(Rule::FuncExt { parent, lit, abbr }))
    }

    fn factored(&mut self) -> Result<ParsedRule, Stop>
        ensures read { IfOk result IsRuleRead }
        ensures takes { (p i j : ℕ) (rest : List (List ℕ)) → p < 2 ^ 64 → i < 2 ^ 32 → j < 2 ^ 32 → Reads self.old (literal_and_then i (spec.decimal j ∷ codes ")" ∷ one_parent_then p rest)) result (parsed.Plain (record_of.Factor p i j)) self.new rest }
        ensures stays { self.new ≡ record self.old { at = self.new.at } }
    {
        let first = self.literal_and()?;
        let second = self.literal_number()?;
        self.take(b")")?;
        let parent = self.one_parent()?;
        Ok(ParsedRule::Plain(Rule::Factor {
            parent,
            first,
            second,
        }))
    }

    fn reflexivity(&mut self) -> Result<ParsedRule, Stop>
        ensures read { IfOk result IsRuleRead }
        ensures takes { (rest : List (List ℕ)) → Reads self.old (no_parent_then rest) result (parsed.Plain record_of.Refl) self.new rest }
        ensures stays { self.new ≡ record self.old { at = self.new.at } }
    {
        self.no_parent()?;
        Ok(ParsedRule::Plain(Rule::Refl))
    }

    fn chosen(&mut self) -> Result<ParsedRule, Stop>
        ensures read { IfOk result IsRuleRead }
        ensures takes { (rest : List (List ℕ)) → Reads self.old (no_parent_then rest) result (parsed.Plain record_of.Choice) self.new rest }
        ensures stays { self.new ≡ record self.old { at = self.new.at } }
    {
        self.no_parent()?;
        Ok(ParsedRule::Plain(Rule::Choice))
    }

    fn abbreviation(&mut self) -> Result<ParsedRule, Stop>
        ensures read { IfOk result IsRuleRead }
        ensures takes { (rest : List (List ℕ)) → Reads self.old (no_parent_then rest) result (parsed.Abbreviate) self.new rest }
        ensures stays { self.new ≡ record self.old { at = self.new.at } }
    {
        self.no_parent()?;
        Ok(ParsedRule::Abbreviate)
    }

    /// What stands between what a rule was applied to and its parents.
    fn middle(&mut self) -> Result<(), Stop>
        ensures takes { (rest : List (List ℕ)) → PassesWords self.old (middle_then rest) result self.new rest }
        ensures stays { self.new ≡ record self.old { at = self.new.at } }
    {
        self.take_all(&[b"]", b",", b"["])
    }

    /// The end of a line.
    fn end(&mut self) -> Result<(), Stop>
        ensures takes { (rest : List (List ℕ)) → PassesWords self.old (end_then rest) result self.new rest }
        ensures stays { self.new ≡ record self.old { at = self.new.at } }
    {
        self.take_all(&[b"]", b")", b")", b"."])
    }

    fn line_name(&mut self) -> Result<u64, Stop>
        ensures takes { (p : ℕ) (rest : List (List ℕ)) → p < 2 ^ 64 → Reads self.old (line_word p ∷ rest) result p self.new rest }
        ensures stays { self.new ≡ record self.old { at = self.new.at } }
    {
        let Some(number) = self.numbered(b'l') else {
            return Err(Stop::Refused);
        };
        self.pass();
        Ok(number)
    }

    fn no_parent(&mut self) -> Result<(), Stop>
        ensures takes { (rest : List (List ℕ)) → PassesWords self.old (no_parent_then rest) result self.new rest }
        ensures stays { self.new ≡ record self.old { at = self.new.at } }
    {
        self.middle()?;
        self.end()
    }

    fn one_parent(&mut self) -> Result<u64, Stop>
        ensures takes { (p : ℕ) (rest : List (List ℕ)) → p < 2 ^ 64 → Reads self.old (one_parent_then p rest) result p self.new rest }
        ensures stays { self.new ≡ record self.old { at = self.new.at } }
    {
        self.middle()?;
        let parent = self.line_name()?;
        self.end()?;
        Ok(parent)
    }

    fn two_parents(&mut self) -> Result<(u64, u64), Stop>
        ensures takes { (p q : ℕ) (rest : List (List ℕ)) → p < 2 ^ 64 → q < 2 ^ 64 → Reads self.old (two_parents_then p q rest) result (p, q) self.new rest }
        ensures stays { self.new ≡ record self.old { at = self.new.at } }
    {
        self.middle()?;
        let first = self.line_name()?;
        self.take(b",")?;
        let second = self.line_name()?;
        self.end()?;
        Ok((first, second))
    }

    /// A parent, and the line of an abbreviation where one is used.
    fn parent_and(&mut self) -> Result<(u64, Option<u64>), Stop>
        ensures takes { (p : ℕ) (a : Option ℕ) (rest : List (List ℕ)) → p < 2 ^ 64 → IfSome a (λ q. q < 2 ^ 64) → Reads self.old (parent_and_then p a rest) result (p, a) self.new rest }
        ensures stays { self.new ≡ record self.old { at = self.new.at } }
    {
        self.middle()?;
        let parent = self.line_name()?;
        let abbr = self.second_name()?;
        self.end()?;
        Ok((parent, abbr))
    }

    fn second_name(&mut self) -> Result<Option<u64>, Stop>
        ensures none { (rest : List (List ℕ)) → Reads self.old (end_then rest) result None self.new (end_then rest) }
        ensures some { (q : ℕ) (rest : List (List ℕ)) → q < 2 ^ 64 → Reads self.old (codes "," ∷ line_word q ∷ rest) result (Some q) self.new rest }
        ensures stays { self.new ≡ record self.old { at = self.new.at } }
    {
        if !self.sees(b",") {
            return Ok(None);
        }
        self.pass();
        let name = self.line_name()?;
        Ok(Some(name))
    }
}
