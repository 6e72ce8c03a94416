//! What a typing says.

use crate::tree::TypeTree;
use leo_items::Items;

/// An atom, the byte where it stands, and its type.
#[derive(Drop)]
pub struct Typed {
    pub atom: Items<u8>,
    pub atom_byte: u32,
    pub ty: TypeTree,
}
