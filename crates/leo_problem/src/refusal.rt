//! Why a problem is not loaded.

ghost use Rattle.std.specs.Prelude.{◌≡◌, ◌≢◌};
ghost use Rattle.leo_problem.specs.declared.refusal.LoadRefusal.TheVariants.{Refused, Memory};
ghost use Rattle.leo_problem.specs.Theories.{meaning_refusal};

use leo_elab::ElabRefusal;
use leo_items::Items;
use leo_syntax::Form;
use std::alloc::{AllocError, AllocFailed, Global};

/// What is wrong with a problem.
#[derive(Clone, Copy, Debug, PartialEq, Eq)]
pub enum What {
    /// There are too many files, or too many levels of includes.
    Includes,
    /// The file could not be read.
    ReadFault,
    /// The file, or all files together, have too many bytes.
    Large,
    /// No token begins there, or the token there has no end.
    Lexical,
    /// The token stands beyond the last level.
    Deep,
    /// The token belongs to a form that the profile does not have.
    Unsupported(Form),
    /// No file goes on with the token, or the text ends too early.
    Syntax,
    /// The role is not listed.
    Role,
    /// The statement is a second conjecture.
    Conjectures,
    /// The atom was declared before with another type, or as type and as constant.
    Twice,
    /// The atom is not declared.
    Unknown,
    /// What begins there has a type that does not fit.
    WrongType,
    /// No binder binds the variable.
    Free,
}

/// Why a problem is not loaded.
#[derive(Debug, Drop)]
pub enum LoadRefusal {
    /// What is wrong, in the file that was asked for by that name, at that byte.
    Refused {
        file: Items<u8>,
        byte: u32,
        what: What,
    },
    Memory,
}

impl From<AllocError> for LoadRefusal {
    ghost from_gives = { λ _ refusal. refusal ≡ Memory };

    fn from(_failed: AllocError) -> LoadRefusal {
        LoadRefusal::Memory
    }
}

impl<T: Drop> From<AllocFailed<T>> for LoadRefusal {
    ghost from_gives = { λ _ refusal. refusal ≡ Memory };

    fn from(_failed: AllocFailed<T>) -> LoadRefusal {
        LoadRefusal::Memory
    }
}

/// A refusal in the file of that name, if there is memory to say so.
pub fn refused(alloc: Global, file: &[u8], byte: u32, what: What) -> LoadRefusal
    ensures { result ≢ Memory → result ≡ Refused file.now byte what }
{
    match Items::from_slice(alloc, file) {
        Ok(file) => LoadRefusal::Refused { file, byte, what },
        Err(_) => LoadRefusal::Memory,
    }
}

/// The refusal of the file of that name for what is wrong in a typing or a formula.
pub fn refused_meaning(alloc: Global, file: &[u8], refusal: ElabRefusal) -> LoadRefusal
    ensures { result ≢ Memory → result ≡ meaning_refusal file.now refusal }
{
    match refusal {
        ElabRefusal::Twice { byte } => refused(alloc, file, byte, What::Twice),
        ElabRefusal::Unknown { byte } => refused(alloc, file, byte, What::Unknown),
        ElabRefusal::WrongType { byte } => refused(alloc, file, byte, What::WrongType),
        ElabRefusal::Free { byte } => refused(alloc, file, byte, What::Free),
        ElabRefusal::Unsupported { byte, form } => {
            refused(alloc, file, byte, What::Unsupported(form))
        }
        ElabRefusal::Memory => LoadRefusal::Memory,
    }
}
