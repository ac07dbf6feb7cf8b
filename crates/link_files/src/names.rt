//! Which texts may be the name of an interface.
ghost use Rattle.std.specs.Prelude.{◌≡◌};
ghost use Rattle.std.specs.List.{list_all};
ghost use Rattle.link_files.specs.Names.{is_interface_name, is_name_byte};

use text_bytes::has_digits;
use text_tables::is_among;

/// The most bytes of a name.
const MAX_NAME: usize = 15;

/// The names that no interface may have.
pub(crate) const RESERVED: [&[u8]; 4] = [b".", b"..", b"all", b"default"];

/// Whether all bytes of a text may be in a name of an interface.
fn has_name_bytes(text: &[u8]) -> bool
    ensures { result ≡ list_all is_name_byte text.now }
{
    text.iter().all(|byte| *byte > b' '
        && *byte < 0x7F
        && *byte != b':'
        && *byte != b'/'
        && *byte != b'%')
}

/// Whether a text may be the name of an interface.
#[tactic(auto, unfolding(crate::specs::Names::is_interface_name))]
pub fn is_interface_name(text: &[u8]) -> bool
    ensures { result ≡ is_interface_name text.now }
{
    !text.is_empty()
        && text.len() <= MAX_NAME
        && has_name_bytes(text)
        && !has_digits(text)
        && !is_among(&RESERVED, text)
}
