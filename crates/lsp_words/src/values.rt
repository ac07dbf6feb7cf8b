//! What the value of a token is made of, by its key, what is in the braces, and its operator.
ghost use Rattle.std.specs.Prelude.{◌≡◌};
ghost use Rattle.lsp_words.specs.Values.{is_split, substitutes};

use rule_types::{ImportType, Key, import_type_of, key_of};

/// Whether the value of a token has substitutions.
#[tactic(auto, unfolding(crate::specs::Values::substitutes))]
pub(crate) fn substitutes(key: &[u8], braces: &[u8], operator: &[u8]) -> bool
    ensures { result ≡ substitutes key.now braces.now operator.now }
{
    let Some(key) = key_of(key) else {
        return false;
    };
    match key {
        Key::Test | Key::Program | Key::Owner | Key::Group | Key::Mode | Key::Seclabel | Key::Run =>
            true,
        Key::Import => !matches!(
            import_type_of(braces),
            Some(ImportType::Cmdline | ImportType::Db)
        ),
        Key::Name | Key::Symlink | Key::Tag | Key::Attr | Key::Sysctl | Key::Env => {
            operator != b"==".as_slice() && operator != b"!=".as_slice()
        }
        _ => false,
    }
}

/// Whether a bar ends a word in the values of a key.
#[tactic(auto, unfolding(crate::specs::Values::is_split))]
pub(crate) fn is_split(key: &[u8]) -> bool
    ensures { result ≡ is_split key.now }
{
    match key_of(key) {
        Some(Key::Action | Key::Subsystem | Key::Subsystems) => true,
        _ => false,
    }
}
