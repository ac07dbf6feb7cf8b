//! The codes of remarks.
ghost use Rattle.std.specs.Prelude.{◌≡◌};
ghost use Rattle.engine_checks.specs.Codes.{is_code, is_found};

use file_catalogue::{Remark, remark_of};

/// Whether a text is the code of something that can be found in a file; case counts, and the codes of remarks on
/// comments are not among them.
pub(crate) fn is_code(code: &[u8]) -> bool
    ensures { result ≡ is_code code.now }
{
    match remark_of(code) {
        Some(remark) => is_found(remark),
        None => false,
    }
}

/// Whether a remark is about what is found in a file, and not about a comment.
fn is_found(remark: Remark) -> bool
    ensures { result ≡ is_found remark }
{
    match remark {
        Remark::Message(_) | Remark::Lint(_) | Remark::DatabaseLint(_) => true,
        Remark::LinkFault(_) => true,
        Remark::IdleIgnore | Remark::UnknownCode => false,
    }
}
