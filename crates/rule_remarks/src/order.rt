//! A PROGRAM that follows a RESULT.
ghost use Rattle.std.specs.Prelude.{◌≡◌, option_map};
ghost use Rattle.rule_types.specs.Tokens.{tokens_in};
ghost use Rattle.rule_remarks.specs.Remarks.{late_program};

use rule_tokens::Token;
use rule_types::WrittenPart;

/// The first PROGRAM that follows a RESULT.
pub(crate) fn late_program<'t, 'a>(parts: &'t [WrittenPart<'a>]) -> Option<&'t Token<'a>>
    ensures { option_map (λ t. t.now) result ≡ late_program (tokens_in parts.now) }
{
    let mut asked = false;
    for written in parts {
        let token = &written.token;
        if asked && token.key() == b"PROGRAM".as_slice() {
            return Some(token);
        }
        asked = asked || token.key() == b"RESULT".as_slice();
    }
    None
}
