//! The bank.

ghost use Rattle.std.specs.Prelude.{◌≡◌, ◌+◌, ◌-◌, ◌^◌, ◌<◌, ◌≤◌, ℕ, [], ◌∷◌, ◌++◌, length, slice_get, IfOk, OnOk, OnErr, IfErr, Some, None, take, true};
ghost use Rattle.std.specs.List.{IsDistinct};
ghost use Rattle.leo_terms.specs.Tree.{variable, bound, symbol, app, lam, logic, IsBoundAt};
ghost use Rattle.indexmap.specs.IndexSet.{insert_key};
ghost use Rattle.leo_terms.specs.Contents.{Contents, AddsShared, IsAdded, IsBank, Extends, connective, argument, IsSound, IsSoundNode, IsSoundType, Grows, IsArrow, IsTerm, IsApplicable, IsNewName, IsSoundView, IsTypedView, AddsSymbol, Takes, HasTypeBelow, node, start, type_at, tree_at, view_tree, type_number, codomain_number, symbol_type, operator_type, argument_type};

use crate::facts::TermFacts;
use crate::memo::{Lift, Put};
use crate::node::{Op, SymId, TermId, TermNode, TyId, TyView, View};
use indexmap::{IndexMap, IndexSet};
use std::alloc::{AllocError, Global};
use std::hash::Hash;
use std::marker::Model;

/// A symbol: its name, if it has one, and its type.
#[derive(Drop)]
pub(crate) struct Symbol {
    pub name: Option<Vec<u8>>,
    pub ty: TyId,
}

/// Types, symbols and terms, by number. Equal types have one number, and so have equal terms.
#[derive(Drop)]
pub struct Bank {
    pub(crate) bases: u64,
    pub(crate) types: IndexSet<TyView>,
    pub(crate) symbols: Vec<Symbol>,
    pub(crate) terms: IndexSet<TermNode>,
    pub(crate) facts: Vec<TermFacts>,
    pub(crate) lifts: IndexMap<Lift, TermId>,
    pub(crate) puts: IndexMap<Put, TermId>,
    pub(crate) expansions: IndexMap<TermId, TermId>,
    pub(crate) normals: IndexMap<TermId, TermId>,
}

impl Model for Bank {
    ghost use Rattle.leo_terms.specs.Contents.{Contents};

    ghost Value = { Contents };

    ghost use Rattle.leo_terms.specs.BankView.{contents_of, IsSoundInside};

    ghost view = { contents_of };

    ghost invariant = { IsSoundInside };
}

/// The place of a node, which is appended if it is not there.
fn add<T: Eq + Hash + Drop>(nodes: &mut IndexSet<T>, node: T) -> Result<usize, AllocError>
    ensures stored { IfOk result (λ n. (x : T) × (slice_get nodes.new.keys n ≡ Some x) × (T.eq node x ≡ true)) }
    ensures keys { OnOk result (nodes.new.keys ≡ insert_key T.eq nodes.old.keys node) }
    ensures unique { IsDistinct T.eq nodes.new.keys }
    ensures reflexive { (x : T) → T.eq x x ≡ true }
    ensures fits { length nodes.new.keys < 2 ^ 64 }
    ensures err { OnErr result (nodes.new.keys ≡ nodes.old.keys) }
{
    let _count = nodes.len();
    let (place, _) = nodes.insert_full(node)?;
    Ok(place)
}

/// The same, where facts are kept beside the nodes.
fn add_with_facts<T: Eq + Hash + Drop>(
    nodes: &mut IndexSet<T>,
    facts: &mut Vec<TermFacts>,
    node: T,
    its: TermFacts,
) -> Result<usize, AllocError>
    requires { length facts.old.items ≡ length nodes.old.keys }
    ensures stored { IfOk result (λ n. (x : T) × (slice_get nodes.new.keys n ≡ Some x) × (T.eq node x ≡ true)) }
    ensures keys { OnOk result (nodes.new.keys ≡ insert_key T.eq nodes.old.keys node) }
    ensures unique { IsDistinct T.eq nodes.new.keys }
    ensures reflexive { (x : T) → T.eq x x ≡ true }
    ensures fits { length nodes.new.keys < 2 ^ 64 }
    ensures err { OnErr result (nodes.new.keys ≡ nodes.old.keys) }
    ensures facts { facts.new.items ≡ take (length nodes.new.keys) (facts.old.items ++ its ∷ []) }
{
    let _count = nodes.len();
    facts.push(its)?;
    let place = add(nodes, node);
    facts.truncate(nodes.len());
    place
}

/// The argument at a place, if one stands there.
pub(crate) fn argument_at(args: &[TermId], place: usize) -> Option<TermId>
    ensures { result ≡ slice_get args.now place }
{
    if place < args.len() {
        Some(args[place])
    } else {
        None
    }
}

impl Bank {
    /// The number of a type's node.
    pub(crate) fn type_numbered(&mut self, node: TyView) -> Result<TyId, AllocError>
        requires { IsSoundType self.old.bases (length self.old.types) node }
        ensures added { IfOk result (λ i. AddsShared self.old.types self.new.types node i) }
        ensures grows { Grows self.old self.new }
        ensures rest { self.new ≡ record self.old { types = self.new.types } }
        ensures err { OnErr result (self.new ≡ self.old) }
    {
        let place = add(&mut self.types, node)?;
        Ok(TyId::new(place))
    }

    /// The number of a term's node.
    pub(crate) fn numbered(&mut self, view: View, ty: TyId) -> Result<TermId, AllocError>
        requires { IsSoundNode self.old (length self.old.terms) (node view ty) }
        ensures made { IfOk result (λ t. IsTerm self.new t ty (view_tree self.old (tree_at self.old) view (type_at self.old ty))) }
        ensures added { IfOk result (λ t. AddsShared self.old.terms self.new.terms (node view ty) t) }
        ensures grows { Grows self.old self.new }
        ensures rest { self.new ≡ record self.old { terms = self.new.terms } }
        ensures err { OnErr result (self.new ≡ self.old) }
    {
        // The check wants to see the types of a node's parts among this function's variables.
        let (_op, _argument): (Op, Option<TermId>) = (Op::True, None);
        let facts = self.facts_of(&view);
        let node = TermNode { view, ty };
        let place = add_with_facts(&mut self.terms, &mut self.facts, node, facts)?;
        Ok(TermId::new(place))
    }
}

impl Bank {
    fn empty(alloc: Global) -> Result<Bank, AllocError>
        ensures { IfOk result (λ b. IsSound b × (b ≡ start)) }
    {
        let mut types = IndexSet::new(alloc);
        add(&mut types, TyView::Base(0))?;
        add(&mut types, TyView::Base(1))?;
        Ok(Bank {
            bases: 2,
            types,
            symbols: Vec::new(alloc),
            terms: IndexSet::new(alloc),
            facts: Vec::new(alloc),
            lifts: IndexMap::new(alloc),
            puts: IndexMap::new(alloc),
            expansions: IndexMap::new(alloc),
            normals: IndexMap::new(alloc),
        })
    }

    fn next_base(&mut self) -> Result<TyId, AllocError>
        requires { self.old.bases < 2 ^ 32 }
        ensures made { IfOk result (λ i. AddsShared self.old.types self.new.types (TyView.Base self.old.bases) i) }
        ensures counted { OnOk result (self.new.bases ≡ self.old.bases + 1) }
        ensures grows { Grows self.old self.new }
        ensures rest { self.new ≡ record self.old { bases = self.new.bases; types = self.new.types } }
        ensures err { OnErr result (self.new ≡ self.old) }
    {
        let place = add(&mut self.types, TyView::Base(self.bases as u32))?;
        self.bases += 1;
        Ok(TyId::new(place))
    }

    pub(crate) fn loose(&mut self, index: u32, ty: TyId) -> Result<TermId, AllocError>
        requires { ty < length self.old.types }
        ensures made { IfOk result (λ t. IsTerm self.new t ty (bound index (type_at self.old ty))) }
        ensures grows { Grows self.old self.new }
        ensures err { OnErr result (self.new ≡ self.old) }
    {
        self.numbered(View::Bound(index), ty)
    }

    fn lambda(&mut self, ty: TyId, body: TermId) -> Result<TermId, AllocError>
        requires from { ty < length self.old.types }
        requires body { body < length self.old.terms }
        requires typed { IsBoundAt 0 (type_at self.old ty) (tree_at self.old body) }
        ensures made { IfOk result (λ t. IsTerm self.new t (type_number self.new t) (lam (type_at self.old ty) (tree_at self.old body))) }
        ensures arrow { IfOk result (λ t. IsArrow self.new (type_number self.new t) ty (type_number self.old body)) }
        ensures added { IfOk result (λ t. AddsShared self.old.terms self.new.terms (node (View.Lam ty body) (type_number self.new t)) t) }
        ensures grows { Grows self.old self.new }
        ensures rest { self.new ≡ record self.old { types = self.new.types; terms = self.new.terms } }
        ensures err { OnErr result (self.new ≡ record self.old { types = self.new.types }) }
    {
        let whole = self.type_numbered(TyView::Arrow(ty, self.ty_of(body)))?;
        let t = self.numbered(View::Lam(ty, body), whole)?;
        Ok(t)
    }

    fn named_symbol(&mut self, alloc: Global, name: &[u8], ty: TyId) -> Result<SymId, AllocError>
        requires type_within { ty < length self.old.types }
        requires new { IsNewName self.old name.now }
        ensures made { IfOk result (AddsSymbol self.old self.new (record { name = Some name.now; ty = ty })) }
        ensures grows { Grows self.old self.new }
        ensures err { OnErr result (self.new ≡ self.old) }
    {
        let place = self.symbols.len();
        let name = Some(name.to_vec(alloc)?);
        self.symbols.push(Symbol { name, ty })?;
        Ok(SymId::new(place))
    }

    fn unnamed_symbol(&mut self, ty: TyId) -> Result<SymId, AllocError>
        requires { ty < length self.old.types }
        ensures made { IfOk result (AddsSymbol self.old self.new (record { name = None; ty = ty })) }
        ensures grows { Grows self.old self.new }
        ensures err { OnErr result (self.new ≡ self.old) }
    {
        let place = self.symbols.len();
        self.symbols.push(Symbol { name: None, ty })?;
        Ok(SymId::new(place))
    }
}

impl Bank {
    /// A bank with the base types `$o` and `$i` alone.
    pub fn new(alloc: Global) -> Result<Bank, AllocError>
        ensures sound { IfOk result (λ b. IsBank b) }
        ensures start { IfOk result (λ b. b ≡ start) }
    {
        Self::empty(alloc)
    }

    /// Every bank is sound: for callers that make no other call.
    pub fn is_sound(&self)
        ensures sound { IsBank self.now }
    {
        self.soundness();
    }

    fn soundness(&self)
        ensures sound { IsSound self.now }
    {
        let _ = &self.terms;
    }

    /// The next base type.
    pub fn base(&mut self) -> Result<TyId, AllocError>
        requires { self.old.bases < 2 ^ 32 }
        ensures made { IfOk result (λ i. IsAdded self.old.types self.new.types (TyView.Base self.old.bases) i) }
        ensures counted { OnOk result (self.new.bases ≡ self.old.bases + 1) }
        ensures within { IfOk result (λ i. i < length self.new.types) }
        ensures grows { Extends self.old self.new }
        ensures rest { self.new ≡ record self.old { bases = self.new.bases; types = self.new.types } }
        ensures err { OnErr result (self.new ≡ self.old) }
    {
        self.next_base()
    }

    /// The type of functions from `a` to `b`.
    pub fn arrow(&mut self, a: TyId, b: TyId) -> Result<TyId, AllocError>
        requires from { a < length self.old.types }
        requires to { b < length self.old.types }
        ensures made { IfOk result (λ i. IsArrow self.new i a b) }
        ensures added { IfOk result (λ i. IsAdded self.old.types self.new.types (TyView.Arrow a b) i) }
        ensures within { IfOk result (λ i. i < length self.new.types) }
        ensures grows { Extends self.old self.new }
        ensures rest { self.new ≡ record self.old { types = self.new.types } }
        ensures err { OnErr result (self.new ≡ self.old) }
    {
        self.type_numbered(TyView::Arrow(a, b))
    }

    /// A type's node.
    pub fn view_ty(&self, ty: TyId) -> TyView
        requires { ty < length self.now.types }
        ensures view { slice_get self.now.types ty ≡ Some result }
        ensures sound { IsBank self.now }
    {
        self.ty_node(ty)
    }

    /// What stands at the top of a term.
    pub fn view(&self, t: TermId) -> View
        requires { t < length self.now.terms }
        ensures view { slice_get self.now.terms t ≡ Some (node result (type_number self.now t)) }
        ensures typed { IsTypedView self.now t result (type_number self.now t) }
        ensures sound { IsBank self.now }
    {
        self.top(t)
    }

    /// A term's type.
    pub fn type_of(&self, t: TermId) -> TyId
        requires { t < length self.now.terms }
        ensures number { result ≡ type_number self.now t }
        ensures sound { IsBank self.now }
    {
        self.ty_of(t)
    }

    /// A variable.
    pub fn make_var(&mut self, number: u32, ty: TyId) -> Result<TermId, AllocError>
        requires { ty < length self.old.types }
        ensures made { IfOk result (λ t. IsTerm self.new t ty (variable number (type_at self.old ty))) }
        ensures added { IfOk result (λ t. IsAdded self.old.terms self.new.terms (node (View.Var number) ty) t) }
        ensures grows { Extends self.old self.new }
        ensures rest { self.new ≡ record self.old { terms = self.new.terms } }
        ensures err { OnErr result (self.new ≡ self.old) }
    {
        self.numbered(View::Var(number), ty)
    }

    /// A bound variable, which may be loose.
    pub fn make_bound(&mut self, index: u32, ty: TyId) -> Result<TermId, AllocError>
        requires { ty < length self.old.types }
        ensures made { IfOk result (λ t. IsTerm self.new t ty (bound index (type_at self.old ty))) }
        ensures added { IfOk result (λ t. IsAdded self.old.terms self.new.terms (node (View.Bound index) ty) t) }
        ensures grows { Extends self.old self.new }
        ensures rest { self.new ≡ record self.old { terms = self.new.terms } }
        ensures err { OnErr result (self.new ≡ self.old) }
    {
        self.numbered(View::Bound(index), ty)
    }

    /// A symbol.
    pub fn make_sym(&mut self, s: SymId) -> Result<TermId, AllocError>
        requires { s < length self.old.symbols }
        ensures made { IfOk result (λ t. IsTerm self.new t (symbol_type self.old s) (symbol s (type_at self.old (symbol_type self.old s)))) }
        ensures added { IfOk result (λ t. IsAdded self.old.terms self.new.terms (node (View.Sym s) (symbol_type self.old s)) t) }
        ensures grows { Extends self.old self.new }
        ensures rest { self.new ≡ record self.old { terms = self.new.terms } }
        ensures err { OnErr result (self.new ≡ self.old) }
    {
        let ty = self.symbol_ty(s);
        self.numbered(View::Sym(s), ty)
    }

    /// A function applied to an argument.
    pub fn make_app(&mut self, f: TermId, a: TermId) -> Result<TermId, AllocError>
        requires function { f < length self.old.terms }
        requires argument { a < length self.old.terms }
        requires typed { IsApplicable self.old f a }
        ensures made { IfOk result (λ t. IsTerm self.new t (codomain_number self.old (type_number self.old f)) (app (tree_at self.old f) (tree_at self.old a))) }
        ensures added { IfOk result (λ t. IsAdded self.old.terms self.new.terms (node (View.App f a) (codomain_number self.old (type_number self.old f))) t) }
        ensures grows { Extends self.old self.new }
        ensures rest { self.new ≡ record self.old { terms = self.new.terms } }
        ensures err { OnErr result (self.new ≡ self.old) }
    {
        match self.ty_node(self.ty_of(f)) {
            TyView::Arrow(_, ty) => self.numbered(View::App(f, a), ty),
            TyView::Base(_) => unreachable!(),
        }
    }

    /// A function of a bound variable.
    pub fn make_lam(&mut self, ty: TyId, body: TermId) -> Result<TermId, AllocError>
        requires from { ty < length self.old.types }
        requires body { body < length self.old.terms }
        requires typed { IsBoundAt 0 (type_at self.old ty) (tree_at self.old body) }
        ensures made { IfOk result (λ t. IsTerm self.new t (type_number self.new t) (lam (type_at self.old ty) (tree_at self.old body))) }
        ensures arrow { IfOk result (λ t. IsArrow self.new (type_number self.new t) ty (type_number self.old body)) }
        ensures added { IfOk result (λ t. IsAdded self.old.terms self.new.terms (node (View.Lam ty body) (type_number self.new t)) t) }
        ensures grows { Extends self.old self.new }
        ensures rest { self.new ≡ record self.old { types = self.new.types; terms = self.new.terms } }
        ensures err { OnErr result (self.new ≡ record self.old { types = self.new.types }) }
    {
        self.lambda(ty, body)
    }

    /// A logical constant with all its arguments.
    pub fn make_logic(&mut self, op: Op, args: &[TermId]) -> Result<TermId, AllocError>
        requires few { length args.now ≤ 2 }
        requires within { (k x : ℕ) → slice_get args.now k ≡ Some x → x < length self.old.terms }
        requires type_within { HasTypeBelow (length self.old.types) op }
        requires typed { Takes self.old op (argument_type self.old (slice_get args.now 0)) (argument_type self.old (slice_get args.now 1)) (operator_type op) }
        ensures made { IfOk result (λ t. IsTerm self.new t (operator_type op) (logic (connective self.old op) (argument (tree_at self.old) (slice_get args.now 0)) (argument (tree_at self.old) (slice_get args.now 1)))) }
        ensures added { IfOk result (λ t. IsAdded self.old.terms self.new.terms (node (View.Logic op (slice_get args.now 0) (slice_get args.now 1)) (operator_type op)) t) }
        ensures grows { Extends self.old self.new }
        ensures rest { self.new ≡ record self.old { terms = self.new.terms } }
        ensures err { OnErr result (self.new ≡ self.old) }
    {
        let first = argument_at(args, 0);
        let second = argument_at(args, 1);
        let ty = op.ty();
        let _ = &self.terms;
        self.numbered(View::Logic(op, first, second), ty)
    }

    /// A symbol with a name that no symbol has yet.
    pub fn symbol(&mut self, alloc: Global, name: &[u8], ty: TyId) -> Result<SymId, AllocError>
        requires type_within { ty < length self.old.types }
        requires new { IsNewName self.old name.now }
        ensures made { IfOk result (AddsSymbol self.old self.new (record { name = Some name.now; ty = ty })) }
        ensures within { IfOk result (λ s. s < length self.new.symbols) }
        ensures typed { IfOk result (λ s. symbol_type self.new s ≡ ty) }
        ensures grows { Extends self.old self.new }
        ensures err { OnErr result (self.new ≡ self.old) }
    {
        self.named_symbol(alloc, name, ty)
    }

    /// A symbol without a name, which no term has yet.
    pub fn fresh(&mut self, ty: TyId) -> Result<SymId, AllocError>
        requires { ty < length self.old.types }
        ensures made { IfOk result (AddsSymbol self.old self.new (record { name = None; ty = ty })) }
        ensures within { IfOk result (λ s. s < length self.new.symbols) }
        ensures typed { IfOk result (λ s. symbol_type self.new s ≡ ty) }
        ensures grows { Extends self.old self.new }
        ensures err { OnErr result (self.new ≡ self.old) }
    {
        self.unnamed_symbol(ty)
    }

    /// A type's node, as `view_ty` gives it.
    pub(crate) fn ty_node(&self, ty: TyId) -> TyView
        requires { ty < length self.now.types }
        ensures view { slice_get self.now.types ty ≡ Some result }
        ensures sound { IsSound self.now }
    {
        match self.types.get_index(ty.index()) {
            Some(node) => *node,
            None => unreachable!(),
        }
    }

    /// What stands at the top of a term, as `view` gives it.
    #[tactic(auto, unfolding(crate::specs::Contents::type_number))]
    pub(crate) fn top(&self, t: TermId) -> View
        requires { t < length self.now.terms }
        ensures view { slice_get self.now.terms t ≡ Some (node result (type_number self.now t)) }
        ensures typed { IsSoundView self.now t result (type_number self.now t) }
        ensures sound { IsSound self.now }
    {
        self.node(t).view
    }

    /// A term's type, as `type_of` gives it.
    #[tactic(auto, unfolding(crate::specs::Contents::type_number))]
    pub(crate) fn ty_of(&self, t: TermId) -> TyId
        requires { t < length self.now.terms }
        ensures number { result ≡ type_number self.now t }
        ensures sound { IsSound self.now }
    {
        self.node(t).ty
    }

    /// A symbol's type.
    #[tactic(auto, unfolding(crate::specs::Contents::symbol_type))]
    fn symbol_ty(&self, s: SymId) -> TyId
        requires { s < length self.now.symbols }
        ensures number { result ≡ symbol_type self.now s }
        ensures sound { IsSound self.now }
    {
        match self.symbols.get(s.index()) {
            Some(symbol) => symbol.ty,
            None => unreachable!(),
        }
    }

    fn node(&self, t: TermId) -> TermNode
        requires { t < length self.now.terms }
        ensures node { slice_get self.now.terms t ≡ Some result }
        ensures sound { IsSound self.now }
    {
        // The check wants to see the types of a node's parts among this function's variables.
        let (_op, _argument): (Op, Option<TermId>) = (Op::True, None);
        match self.terms.get_index(t.index()) {
            Some(node) => *node,
            None => unreachable!(),
        }
    }
}
