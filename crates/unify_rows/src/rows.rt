//! The rows. A row has three cells: what it says, the depth, and the digits of the variables' types with the pairs behind them.

/// Cases without branches.
pub(crate) const CASES: &[&str] = &[
    "X against f a; 0; 1 +0fa@",
    "f a against X; 0; 1 +fa@0",
    "X against f X; 0; 1 +0f0@",
    "f a against f b; 0; . +fa@fb@",
    "f X against f a; 0; 1 +f0@fa@",
    "p against q; 0; . +pq",
    "a against a; 0; . +aa",
    "a against b; 0; . +ab",
    "X against Y; 0; 11 +01",
    "X x against f x; 0; 2 +0x@\\fx@\\",
    "X x against a; 0; 2 +0x@\\a\\",
    "X against x; 0; 1 +0\\x\\",
    "X y x against m y x; 0; 4 +0y@x@\\\\my@x@\\\\",
    "X x y against m y x; 0; 4 +0x@y@\\\\my@x@\\\\",
    "p & q against q & p; 0; . +pq&qp&",
    "the chosen thing of r against that of m a; 0; . +rx@\\ema@x@\\e",
    "X a against Y b; 0; 22 +0a@1b@",
    "X a against b; 0; 2 +0a@b",
];

/// Branches.
pub(crate) const BRANCHES: &[&str] = &[
    "X a against b at depth 1; 1; 2 +0a@b",
    "b against X a at depth 1; 1; 2 +b0a@",
    "X a against a at depth 1; 1; 2 +0a@a",
    "X (f a) against f a at depth 1; 1; 2 +0fa@@fa@",
    "X (f a) against f a at depth 2; 2; 2 +0fa@@fa@",
    "X a against p & q at depth 1; 1; 3 +0a@pq&",
    "X x x against x at depth 1; 1; 5 +0x@x@\\x\\",
    "X of nine arguments at depth 1; 1; 7 +0a@a@a@a@a@a@a@a@a@b",
    "an early pair before one that would bind at depth 0; 0; 2 +0a@a +0x@\\x\\",
    "an early pair before one that would bind at depth 1; 1; 2 +0a@a +0x@\\x\\",
    "twice five at depth 1; 1; 66 +0a@a@a@a@a +1a@a@a@a@a",
    "twice five at depth 2; 2; 66 +0a@a@a@a@a +1a@a@a@a@a",
];

/// What is left of a pair.
pub(crate) const RESIDUES: &[&str] = &[
    "a and b; 0; . +ab",
    "a and a; 0; . +aa",
    "f a and f b; 0; . +fa@fb@",
    "m a b and m b a; 0; . +ma@b@mb@a@",
    "m a b and m a a; 0; . +ma@b@ma@a@",
    "p & q and q & p; 0; . +pq&qp&",
    "the chosen thing of r and that of m a; 0; . +rx@\\ema@x@\\e",
    "X and a; 0; 1 +0a",
    "f a and g a; 0; . +fa@ga@",
];
