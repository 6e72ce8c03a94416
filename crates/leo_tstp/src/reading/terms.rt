//! Terms as they are read.

ghost use Rattle.std.specs.Prelude.{◌≡◌, ◌≢◌, ◌<◌, ◌^◌, ◌-◌, ◌∷◌, ◌++◌, ℕ, List, Some, None, OnOk, codes, decimal, length, slice_get};
ghost use Rattle.leo_q0.specs.Terms.{SimpleType};
ghost use Rattle.leo_terms.specs.Tree.{bound, connective_type, symbol, truth_type, variable};
ghost use Rattle.leo_tstp.specs.declared.reading.lexicon.Lexicon.{Lexicon};
ghost use Rattle.leo_tstp.specs.Vocabulary.{Vocabulary};
ghost use Rattle.leo_tstp.specs.Shapes.{between, opening};
ghost use Rattle.leo_tstp.specs.Ahead.{IsTaken, ahead_of, first_word, second_word};
ghost use Rattle.leo_tstp.specs.Places.{Fits, GoesOn, IsPlace, TakesBinder};
ghost use Rattle.leo_tstp.specs.TermPlaces.{FindsAtom, IsAround, IsFound, IsKnownSymbol, IsSaid, TakesApplication, TakesAtom, TakesBehind, TakesEquation, TakesFirst, TakesInside, TakesJoined, TakesLambda, TakesNegation, TakesOver, TakesQuantified, TakesSet, TakesTerm, TakesUnder, quantified_by};

use crate::reading::patterns::{Pattern, domain, fits, parts, takes_truth};
use crate::reading::source::{Reader, is, number_at, number_behind};
use crate::reading::trees::{Joint, Parsed, Quantifier, ROOM, TRUTH, TypeNode, Typed};
use crate::refusal::Stop;
use leo_items::Boxed;

/// What stands behind a bracket that opens.
#[derive(Clone, Copy)]
pub(crate) enum Opening {
    Lambda,
    /// A quantifier with its variable.
    Binder(Quantifier),
    /// A quantifier that is applied to a set.
    Applied(Quantifier),
    Not,
    /// A term.
    Other,
}

pub(crate) fn opening_of(word: &[u8]) -> Opening
    ensures { result ≡ opening word.now }
{
    if is(word, b"^") {
        Opening::Lambda
    } else if is(word, b"!") {
        Opening::Binder(Quantifier::All)
    } else if is(word, b"?") {
        Opening::Binder(Quantifier::Some)
    } else if is(word, b"@+") {
        Opening::Binder(Quantifier::Choice)
    } else if is(word, b"!!") {
        Opening::Applied(Quantifier::All)
    } else if is(word, b"??") {
        Opening::Applied(Quantifier::Some)
    } else if is(word, b"@@+") {
        Opening::Applied(Quantifier::Choice)
    } else if is(word, b"~") {
        Opening::Not
    } else {
        Opening::Other
    }
}

/// What stands between two terms.
#[derive(Clone, Copy)]
enum Between {
    Apply,
    Join(Joint),
    Equal,
}

fn sign_of(word: &[u8]) -> Option<Between>
    ensures { result ≡ between word.now }
{
    if is(word, b"@") {
        Some(Between::Apply)
    } else if is(word, b"|") {
        Some(Between::Join(Joint::Or))
    } else if is(word, b"&") {
        Some(Between::Join(Joint::And))
    } else if is(word, b"=>") {
        Some(Between::Join(Joint::Implies))
    } else if is(word, b"=") {
        Some(Between::Equal)
    } else {
        None
    }
}

/// The number, if it is one of a variable.
fn small(number: u64) -> Option<u32>
    ensures { number < 2 ^ 32 → result ≡ Some number }
{
    u32::try_from(number).ok()
}

/// The type of a quantifier over things of a type.
fn quantified_type(quantifier: Quantifier, of: usize) -> usize
    ensures { (v : Vocabulary) (l : Lexicon) (ns : List TypeNode) (a : SimpleType) → IsPlace v l ns truth_type 0 → IsPlace v l ns a of → IsPlace v l ns (connective_type (quantified_by quantifier a)) result }
{
    match quantifier {
        Quantifier::Choice => of,
        Quantifier::All | Quantifier::Some => TRUTH,
    }
}

/// The types of the things that a quantifier of a type that fits is over.
fn element_of<'a>(quantifier: Quantifier, asked: Pattern<'a>) -> Pattern<'a>
    ensures { (v : Vocabulary) (l : Lexicon) (ns : List TypeNode) (a : SimpleType) → Fits v l ns asked.entry (connective_type (quantified_by quantifier a)) → Fits v l ns result a }
{
    match quantifier {
        Quantifier::Choice => asked,
        Quantifier::All | Quantifier::Some => Pattern::Any,
    }
}

impl Reader<'_> {
    /// A term of a type that fits.
    #[cycle(term)]
    pub(crate) fn term(&mut self, asked: Pattern<'_>, room: u32) -> Result<Typed, Stop>
        ensures takes { TakesTerm self.old asked.entry result self.new }
        ensures goes { OnOk result (GoesOn self.old self.new) }
    {
        let Some(room) = room.checked_sub(1) else {
            return Err(Stop::Memory);
        };
        if self.sees(b"(") {
            self.pass();
            let found = self.inside(asked, room)?;
            self.take(b")")?;
            Ok(found)
        } else {
            self.atom(asked)
        }
    }

    fn atom(&mut self, asked: Pattern<'_>) -> Result<Typed, Stop>
        ensures takes { TakesAtom self.old asked.entry result self.new }
        ensures goes { OnOk result (GoesOn self.old self.new) }
    {
        let Some(found) = self.next_atom() else {
            return Err(Stop::Refused);
        };
        if !fits(&self.types, &asked, found.ty) {
            return Err(Stop::Refused);
        }
        self.pass();
        Ok(found)
    }

    /// The term that the next token is.
    fn next_atom(&self) -> Option<Typed>
        ensures { FindsAtom self.now result }
    {
        let word = self.word();
        if is(word, b"$true") {
            return Some(Typed {
                term: Parsed::Truth(true),
                ty: TRUTH,
            });
        }
        if is(word, b"$false") {
            return Some(Typed {
                term: Parsed::Truth(false),
                ty: TRUTH,
            });
        }
        if let Some(number) = number_behind(word, b'X') {
            return self.variable(number);
        }
        if let Some(place) = self.level_named(word) {
            return self.level(place);
        }
        self.symbol(word)
    }

    fn variable(&self, number: u64) -> Option<Typed>
        ensures { (v : Vocabulary) (vs s : List SimpleType) (a : SimpleType) → IsAround v self.now vs s → number < 2 ^ 32 → slice_get vs number ≡ Some a → IsFound result (IsSaid v self.now (length self.now.scope.items) (variable number a)) }
    {
        let place = small(number)?;
        let ty = number_at(self.variables.as_slice(), place as usize)?;
        Some(Typed {
            term: Parsed::Variable(place),
            ty,
        })
    }

    /// The level that a word names, if there are so many.
    fn level_named(&self, word: &[u8]) -> Option<usize>
        ensures reads { (n : ℕ) → n < length self.now.scope.items → word.now ≡ codes "Y" ++ decimal n → result ≡ Some n }
        ensures other { (b : ℕ) (bs : List ℕ) → word.now ≡ b ∷ bs → b ≢ 89 → result ≡ None }
    {
        let levels = self.scope.len() as u64;
        let number = number_behind(word, b'Y')?;
        if number < levels {
            Some(number as usize)
        } else {
            None
        }
    }

    fn level(&self, place: usize) -> Option<Typed>
        ensures { (v : Vocabulary) (vs s : List SimpleType) (i : ℕ) (a : SimpleType) → IsAround v self.now vs s → slice_get s i ≡ Some a → place ≡ (length self.now.scope.items - i) - 1 → IsFound result (IsSaid v self.now (length self.now.scope.items) (bound i a)) }
    {
        let ty = number_at(self.scope.as_slice(), place)?;
        Some(Typed {
            term: Parsed::Level(place),
            ty,
        })
    }

    fn symbol(&self, word: &[u8]) -> Option<Typed>
        ensures { (v : Vocabulary) (s : ℕ) (a : SimpleType) → word.now ≡ v.symbol_word s → IsKnownSymbol v self.now.lexicon self.now.types.nodes.keys s a → IsFound result (IsSaid v self.now (length self.now.scope.items) (symbol s a)) }
    {
        let place = self.lexicon.symbol_named(word)?;
        let ty = number_at(self.lexicon.symbol_types.as_slice(), place)?;
        Some(Typed {
            term: Parsed::Symbol(place),
            ty,
        })
    }

    /// What stands between brackets.
    #[cycle(term)]
    fn inside(&mut self, asked: Pattern<'_>, room: u32) -> Result<Typed, Stop>
        ensures takes { TakesInside self.old asked.entry result self.new }
        ensures goes { OnOk result (GoesOn self.old self.new) }
    {
        match opening_of(self.word()) {
            Opening::Lambda => self.lambda(asked, room),
            Opening::Binder(quantifier) => self.quantified(quantifier, asked, room),
            Opening::Applied(quantifier) => self.set(quantifier, asked, room),
            Opening::Not => self.negation(asked, room),
            Opening::Other => {
                let first = self.first(asked, room)?;
                self.behind(first, asked, room)
            }
        }
    }

    #[cycle(term)]
    fn lambda(&mut self, asked: Pattern<'_>, room: u32) -> Result<Typed, Stop>
        ensures takes { TakesLambda self.old asked.entry result self.new }
        ensures goes { OnOk result (GoesOn self.old self.new) }
    {
        let Some((from, to)) = parts(&self.types, asked) else {
            return Err(Stop::Refused);
        };
        self.pass();
        let of = self.binder(from)?;
        let body = self.under(of, to, room)?;
        let ty = self.types.place(TypeNode::Arrow(of, body.ty))?;
        let body = Boxed::new(self.alloc, body.term)?;
        Ok(Typed {
            term: Parsed::Lambda(of, body),
            ty,
        })
    }

    /// A binder's variable, of a type that fits.
    fn binder(&mut self, asked: Pattern<'_>) -> Result<usize, Stop>
        ensures takes { TakesBinder self.old asked.entry result self.new }
        ensures goes { OnOk result (GoesOn self.old self.new) }
    {
        let around = self.scope.len();
        self.take(b"[")?;
        self.take_numbered(b'Y', around as u64)?;
        self.take(b":")?;
        let ty = self.read_type(asked, ROOM)?;
        self.take_all(&[b"]", b":"])?;
        Ok(ty)
    }

    /// A body under a binder's variable.
    #[cycle(term)]
    fn under(&mut self, of: usize, asked: Pattern<'_>, room: u32) -> Result<Typed, Stop>
        ensures takes { TakesUnder self.old of asked.entry result self.new }
        ensures goes { OnOk result (GoesOn self.old self.new) }
    {
        self.scope.push(of)?;
        let body = self.term(asked, room)?;
        let _ = self.scope.pop();
        Ok(body)
    }

    /// A quantifier or choice with its variable.
    #[cycle(term)]
    fn quantified(
        &mut self,
        quantifier: Quantifier,
        asked: Pattern<'_>,
        room: u32,
    ) -> Result<Typed, Stop>
        ensures takes { TakesQuantified self.old quantifier asked.entry result self.new }
        ensures goes { OnOk result (GoesOn self.old self.new) }
    {
        let of = self.over(quantifier, asked)?;
        let body = self.under(of, Pattern::Type(TRUTH), room)?;
        let body = Boxed::new(self.alloc, body.term)?;
        let set = Boxed::new(self.alloc, Parsed::Lambda(of, body))?;
        Ok(Typed {
            term: Parsed::Quantify(quantifier, set),
            ty: quantified_type(quantifier, of),
        })
    }

    /// The type of the variable of a quantifier or choice.
    fn over(&mut self, quantifier: Quantifier, asked: Pattern<'_>) -> Result<usize, Stop>
        ensures takes { TakesOver self.old quantifier asked.entry result self.new }
        ensures goes { OnOk result (GoesOn self.old self.new) }
    {
        self.want_quantified(quantifier, asked)?;
        self.pass();
        self.binder(element_of(quantifier, asked))
    }

    /// Refuses the next token where no type of the quantifier or choice fits.
    fn want_quantified(&self, quantifier: Quantifier, asked: Pattern<'_>) -> Result<(), Stop>
        ensures { (v : Vocabulary) (vs s : List SimpleType) (a : SimpleType) → IsAround v self.now vs s → Fits v self.now.lexicon self.now.types.nodes.keys asked.entry (connective_type (quantified_by quantifier a)) → IsTaken result (λ _. Unit {0}) }
    {
        match quantifier {
            Quantifier::Choice => Ok(()),
            Quantifier::All | Quantifier::Some => self.want_truth(asked),
        }
    }

    /// Refuses the next token where `$o` does not fit.
    fn want_truth(&self, asked: Pattern<'_>) -> Result<(), Stop>
        ensures { (v : Vocabulary) (vs s : List SimpleType) → IsAround v self.now vs s → Fits v self.now.lexicon self.now.types.nodes.keys asked.entry truth_type → IsTaken result (λ _. Unit {0}) }
    {
        if takes_truth(&self.types, &asked) {
            Ok(())
        } else {
            Err(Stop::Refused)
        }
    }

    /// A quantifier or choice that is applied to a set, which is no lambda.
    #[cycle(term)]
    fn set(&mut self, quantifier: Quantifier, asked: Pattern<'_>, room: u32) -> Result<Typed, Stop>
        ensures takes { TakesSet self.old quantifier asked.entry result self.new }
        ensures goes { OnOk result (GoesOn self.old self.new) }
    {
        self.want_quantified(quantifier, asked)?;
        let element = element_of(quantifier, asked);
        self.pass();
        self.take(b"@")?;
        self.want_no_lambda()?;
        let set = self.term(Pattern::Function(&element, &Pattern::Type(TRUTH)), room)?;
        let Some(of) = domain(&self.types, set.ty) else {
            return Err(Stop::Refused);
        };
        let set = Boxed::new(self.alloc, set.term)?;
        Ok(Typed {
            term: Parsed::Quantify(quantifier, set),
            ty: quantified_type(quantifier, of),
        })
    }

    /// Refuses a lambda at its sign.
    fn want_no_lambda(&mut self) -> Result<(), Stop>
        ensures takes { (first_word (ahead_of self.old) ≡ codes "(" → second_word (ahead_of self.old) ≡ codes "^" → ⊥) → IsTaken result (λ _. Unit {0}) }
        ensures stays { OnOk result (self.new ≡ self.old) }
    {
        if self.sees(b"(") && is(self.word_behind(), b"^") {
            self.pass();
            return Err(Stop::Refused);
        }
        Ok(())
    }

    #[cycle(term)]
    fn negation(&mut self, asked: Pattern<'_>, room: u32) -> Result<Typed, Stop>
        ensures takes { TakesNegation self.old asked.entry result self.new }
        ensures goes { OnOk result (GoesOn self.old self.new) }
    {
        self.want_truth(asked)?;
        self.pass();
        let formula = self.term(Pattern::Type(TRUTH), room)?;
        let formula = Boxed::new(self.alloc, formula.term)?;
        Ok(Typed {
            term: Parsed::Not(formula),
            ty: TRUTH,
        })
    }

    /// The first of two terms, of which the whole has a type that fits.
    #[cycle(term)]
    fn first(&mut self, asked: Pattern<'_>, room: u32) -> Result<Typed, Stop>
        ensures takes { TakesFirst self.old asked.entry result self.new }
        ensures goes { OnOk result (GoesOn self.old self.new) }
    {
        if takes_truth(&self.types, &asked) {
            self.term(Pattern::Any, room)
        } else {
            self.term(Pattern::Function(&Pattern::Any, &asked), room)
        }
    }

    /// What stands behind the first of two terms.
    #[cycle(term)]
    pub(crate) fn behind(
        &mut self,
        first: Typed,
        asked: Pattern<'_>,
        room: u32,
    ) -> Result<Typed, Stop>
        ensures takes { TakesBehind self.old first asked.entry result self.new }
        ensures goes { OnOk result (GoesOn self.old self.new) }
    {
        match sign_of(self.word()) {
            Some(Between::Apply) => self.application(first, asked, room),
            Some(Between::Join(joint)) => self.joined(joint, first, asked, room),
            Some(Between::Equal) => self.equation(first, asked, room),
            None => Err(Stop::Refused),
        }
    }

    #[cycle(term)]
    fn application(&mut self, function: Typed, asked: Pattern<'_>, room: u32) -> Result<Typed, Stop>
        ensures takes { TakesApplication self.old function asked.entry result self.new }
        ensures goes { OnOk result (GoesOn self.old self.new) }
    {
        let Some(TypeNode::Arrow(from, to)) = self.types.node(function.ty) else {
            return Err(Stop::Refused);
        };
        if !fits(&self.types, &asked, to) {
            return Err(Stop::Refused);
        }
        self.pass();
        let argument = self.term(Pattern::Type(from), room)?;
        let function = Boxed::new(self.alloc, function.term)?;
        let argument = Boxed::new(self.alloc, argument.term)?;
        Ok(Typed {
            term: Parsed::Apply(function, argument),
            ty: to,
        })
    }

    #[cycle(term)]
    fn joined(
        &mut self,
        joint: Joint,
        first: Typed,
        asked: Pattern<'_>,
        room: u32,
    ) -> Result<Typed, Stop>
        ensures takes { TakesJoined self.old joint first asked.entry result self.new }
        ensures goes { OnOk result (GoesOn self.old self.new) }
    {
        self.want_truth(asked)?;
        if first.ty != TRUTH {
            return Err(Stop::Refused);
        }
        self.pass();
        let second = self.term(Pattern::Type(TRUTH), room)?;
        let first = Boxed::new(self.alloc, first.term)?;
        let second = Boxed::new(self.alloc, second.term)?;
        Ok(Typed {
            term: Parsed::Join(joint, first, second),
            ty: TRUTH,
        })
    }

    #[cycle(term)]
    fn equation(&mut self, first: Typed, asked: Pattern<'_>, room: u32) -> Result<Typed, Stop>
        ensures takes { TakesEquation self.old first asked.entry result self.new }
        ensures goes { OnOk result (GoesOn self.old self.new) }
    {
        self.want_truth(asked)?;
        self.pass();
        let second = self.term(Pattern::Type(first.ty), room)?;
        let first = Boxed::new(self.alloc, first.term)?;
        let second = Boxed::new(self.alloc, second.term)?;
        Ok(Typed {
            term: Parsed::Equal(first, second),
            ty: TRUTH,
        })
    }
}
