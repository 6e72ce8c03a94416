//! From what the lines of a text say to records whose terms stand in a bank.

pub(crate) mod making;
pub(crate) mod numbers;
pub(crate) mod records;
pub(crate) mod terms;
