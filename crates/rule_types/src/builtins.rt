//! The builtins of udev, and which one a text asks for.
ghost use Rattle.std.specs.Prelude.{◌≡◌, ◌≤◌, IfSome, Some, length, nat_eq, not, true};
ghost use Rattle.std.specs.List.{prefix_len, starts_with};
ghost use Rattle.rule_tokens.specs.Integers.{is_separator};
ghost use Rattle.rule_types.specs.Builtins.{builtin_name, builtin_of, first_word};

use rule_tokens::{after_separators, is_separator};

/// A command that is built into udev.
#[derive(Clone, Copy, PartialEq, Eq)]
pub enum Builtin {
    Blkid,
    Btrfs,
    Hwdb,
    InputId,
    Keyboard,
    Kmod,
    NetDriver,
    NetId,
    NetSetupLink,
    PathId,
    UsbId,
    Uaccess,
}

/// All builtins, in the order in which udev looks them up.
pub const BUILTINS: [Builtin; 12] = [
    Builtin::Blkid,
    Builtin::Btrfs,
    Builtin::Hwdb,
    Builtin::InputId,
    Builtin::Keyboard,
    Builtin::Kmod,
    Builtin::NetDriver,
    Builtin::NetId,
    Builtin::NetSetupLink,
    Builtin::PathId,
    Builtin::UsbId,
    Builtin::Uaccess,
];

impl Builtin {
    /// Its name, by which `builtin_of` finds it.
    #[tactic(auto, unfolding(crate::specs::Builtins::builtin_of))]
    pub fn name(self) -> &'static [u8]
        ensures name { result.now ≡ builtin_name self }
        ensures found { builtin_of (builtin_name self) ≡ Some self }
    {
        match self {
            Builtin::Blkid => b"blkid",
            Builtin::Btrfs => b"btrfs",
            Builtin::Hwdb => b"hwdb",
            Builtin::InputId => b"input_id",
            Builtin::Keyboard => b"keyboard",
            Builtin::Kmod => b"kmod",
            Builtin::NetDriver => b"net_driver",
            Builtin::NetId => b"net_id",
            Builtin::NetSetupLink => b"net_setup_link",
            Builtin::PathId => b"path_id",
            Builtin::UsbId => b"usb_id",
            Builtin::Uaccess => b"uaccess",
        }
    }
}

/// The builtin that a value of RUN{builtin} or IMPORT{builtin} asks for, if there is one: the first
/// whose name begins with the value's first word. Spaces, tabs and ends of lines separate words; the
/// empty word is the beginning of each name.
#[tactic(auto, unfolding(crate::specs::Builtins::builtin_of))]
pub fn builtin_of(text: &[u8]) -> Option<Builtin>
    ensures known { result ≡ builtin_of text.now }
    ensures begun { IfSome result (λ known. starts_with nat_eq (builtin_name known) (first_word text.now) ≡ true) }
{
    let word = first_word(text);
    BUILTINS
        .iter()
        .copied()
        .find(|known| known.name().starts_with(word))
}

/// The first word of a text, empty if the text has none.
pub fn first_word(text: &[u8]) -> &[u8]
    ensures { result.now ≡ first_word text.now }
{
    let words = after_separators(text);
    let (word, _) = words.split_at(word_length(words));
    word
}

/// How many bytes that don't separate words a text begins with.
fn word_length(text: &[u8]) -> usize
    ensures value { result ≡ prefix_len (λ b. not (is_separator b)) text.now }
    ensures within { result ≤ length text.now }
{
    text.iter().take_while(|byte| !is_separator(**byte)).count()
}
