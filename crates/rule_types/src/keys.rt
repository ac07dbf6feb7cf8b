//! The keys and their names.
ghost use Rattle.std.specs.Prelude.{◌≡◌, Some, IfSome, nat_eq};
ghost use Rattle.std.specs.Cmp.Lexicographic.{pointwise};
ghost use Rattle.std.specs.List.{find};
ghost use Rattle.rule_types.specs.Names.{key_name, key_of};

/// A key of a rule's token, by its name in udev(7).
#[derive(Clone, Copy, PartialEq, Eq)]
pub enum Key {
    Action,
    Devpath,
    Kernel,
    Subsystem,
    Driver,
    Kernels,
    Subsystems,
    Drivers,
    Tags,
    Result,
    Attrs,
    Const,
    Test,
    Program,
    Import,
    Name,
    Symlink,
    Tag,
    Attr,
    Sysctl,
    Env,
    Owner,
    Group,
    Mode,
    Seclabel,
    Run,
    Options,
    Label,
    Goto,
}

impl Key {
    /// Its name in capital letters, by which `key_of` finds it.
    #[tactic(auto, unfolding(crate::specs::Names::key_of))]
    pub fn name(self) -> &'static [u8]
        ensures name { result.now ≡ key_name self }
        ensures found { key_of (key_name self) ≡ Some self }
    {
        match self {
            Key::Action => b"ACTION",
            Key::Devpath => b"DEVPATH",
            Key::Kernel => b"KERNEL",
            Key::Subsystem => b"SUBSYSTEM",
            Key::Driver => b"DRIVER",
            Key::Kernels => b"KERNELS",
            Key::Subsystems => b"SUBSYSTEMS",
            Key::Drivers => b"DRIVERS",
            Key::Tags => b"TAGS",
            Key::Result => b"RESULT",
            Key::Attrs => b"ATTRS",
            Key::Const => b"CONST",
            Key::Test => b"TEST",
            Key::Program => b"PROGRAM",
            Key::Import => b"IMPORT",
            Key::Name => b"NAME",
            Key::Symlink => b"SYMLINK",
            Key::Tag => b"TAG",
            Key::Attr => b"ATTR",
            Key::Sysctl => b"SYSCTL",
            Key::Env => b"ENV",
            Key::Owner => b"OWNER",
            Key::Group => b"GROUP",
            Key::Mode => b"MODE",
            Key::Seclabel => b"SECLABEL",
            Key::Run => b"RUN",
            Key::Options => b"OPTIONS",
            Key::Label => b"LABEL",
            Key::Goto => b"GOTO",
        }
    }
}

/// The key with a name, if there is one; case counts.
#[tactic(auto, unfolding(crate::specs::Names::key_of))]
pub fn key_of(text: &[u8]) -> Option<Key>
    ensures value { result ≡ key_of text.now }
    ensures named { IfSome result (λ key. key_name key ≡ text.now) }
{
    match text {
        [b'A', ..] => named(&[Key::Action, Key::Attrs, Key::Attr], text),
        [b'C', ..] => named(&[Key::Const], text),
        [b'D', ..] => named(&[Key::Devpath, Key::Driver, Key::Drivers], text),
        [b'E', ..] => named(&[Key::Env], text),
        [b'G', ..] => named(&[Key::Group, Key::Goto], text),
        [b'I', ..] => named(&[Key::Import], text),
        [b'K', ..] => named(&[Key::Kernel, Key::Kernels], text),
        [b'L', ..] => named(&[Key::Label], text),
        [b'M', ..] => named(&[Key::Mode], text),
        [b'N', ..] => named(&[Key::Name], text),
        [b'O', ..] => named(&[Key::Owner, Key::Options], text),
        [b'P', ..] => named(&[Key::Program], text),
        [b'R', ..] => named(&[Key::Result, Key::Run], text),
        [b'S', ..] => named(
            &[
                Key::Subsystem,
                Key::Subsystems,
                Key::Symlink,
                Key::Sysctl,
                Key::Seclabel,
            ],
            text,
        ),
        [b'T', ..] => named(&[Key::Tags, Key::Test, Key::Tag], text),
        _ => None,
    }
}

/// The first of some keys that has a name, if one has it.
fn named(keys: &[Key], text: &[u8]) -> Option<Key>
    ensures value { result ≡ find (λ key. pointwise nat_eq (key_name key) text.now) keys.now }
    ensures named { IfSome result (λ key. key_name key ≡ text.now) }
{
    keys.iter().copied().find(|key| is_equal(key.name(), text))
}

/// Whether two texts are equal. Names are short: one byte after another costs less than groups of them.
#[tactic(auto, using(crate::proofs::Equal::same_first, crate::proofs::Equal::other_first, crate::proofs::Equal::no_first))]
fn is_equal(mut name: &[u8], mut text: &[u8]) -> bool
    ensures { result ≡ pointwise nat_eq name.now text.now }
{
    while let Some((byte, after)) = name.split_first() {
        match text.split_first() {
            None => return false,
            Some((own, more)) => {
                if *own != *byte {
                    return false;
                }
                name = after;
                text = more;
            }
        }
    }
    text.is_empty()
}
