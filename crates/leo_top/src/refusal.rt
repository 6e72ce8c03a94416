//! How it is said why a problem is not loaded.
ghost use Rattle.std.specs.Prelude.{◌≡◌};
ghost use Rattle.leo_top.specs.Refusals as refusals;

use crate::status::Status;
use leo_problem::What;
use leo_syntax::Form;

fn form_words(form: Form) -> &'static [u8]
    ensures { result.now ≡ refusals.form_words form }
{
    match form {
        Form::Polymorphism => b"unsupported polymorphism",
        Form::Number => b"unsupported number",
        Form::Distinct => b"unsupported distinct",
        Form::Tuple => b"unsupported tuple",
        Form::Let => b"unsupported let",
        Form::Description => b"unsupported description",
        Form::Subtype => b"unsupported subtype",
        Form::Product => b"unsupported product",
        Form::TypeArguments => b"unsupported typearguments",
        Form::Arguments => b"unsupported arguments",
        Form::Equality => b"unsupported equality",
        Form::Word => b"unsupported word",
        Form::System => b"unsupported system",
        Form::Mark => b"unsupported mark",
        Form::Dialect => b"unsupported dialect",
    }
}

/// The words for what is wrong.
pub fn cause_words(what: What) -> &'static [u8]
    ensures { result.now ≡ refusals.cause_words what }
{
    match what {
        What::Includes => b"includes",
        What::ReadFault => b"read fault",
        What::Large => b"large",
        What::Lexical => b"lexical",
        What::Deep => b"deep",
        What::Unsupported(form) => form_words(form),
        What::Syntax => b"syntax",
        What::Role => b"role",
        What::Conjectures => b"second conjecture",
        What::Twice => b"declared twice",
        What::Unknown => b"unknown name",
        What::WrongType => b"wrong type",
        What::Free => b"free variable",
    }
}

/// The status of a problem in which that is wrong.
pub fn refused_status(what: What) -> Status
    ensures { result ≡ refusals.refused_status what }
{
    match what {
        What::ReadFault => Status::OSError,
        What::Lexical | What::Syntax => Status::SyntaxError,
        What::Twice | What::Unknown | What::WrongType | What::Free => Status::TypeError,
        What::Includes | What::Large | What::Deep | What::Unsupported(_) => Status::InputError,
        What::Role | What::Conjectures => Status::InputError,
    }
}

/// Whether it is the file as a whole that is refused, and not a byte of it.
pub fn is_of_file(what: What) -> bool
    ensures { result ≡ refusals.is_of_file what }
{
    matches!(what, What::ReadFault)
}
