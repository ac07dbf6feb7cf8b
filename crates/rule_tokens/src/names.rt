//! The names of substitutions.
//!
//! A name is recognized by its letters alone: in `$kernelx` it is `kernel`, and the `x` stands for
//! itself. So the rows are tried as prefixes of what follows the sign.
ghost use Rattle.std.specs.Prelude.{◌≡◌, map, option_map};
ghost use Rattle.rule_tokens.specs.Names.{long_names_as, named, short_names_as};

use text_bytes::Profile;

/// What the name after a `$` or `%` asks for.
#[derive(Clone, Copy, PartialEq, Eq)]
pub enum Substitution {
    Kernel,
    Number,
    Devpath,
    Id,
    Driver,
    Attr,
    Env,
    Major,
    Minor,
    Result,
    Parent,
    Name,
    Links,
    Root,
    Sys,
    Devnode,
    /// A sign written twice, which stands for one.
    Dollar,
    Percent,
    /// A name of older versions of udev, which the manual refuses.
    Refused,
}

/// The names after a `$`. `sysfs` comes before `sys`, which begins it.
const LONG_NAMES: [(&[u8], Substitution); 19] = [
    (b"kernel", Substitution::Kernel),
    (b"number", Substitution::Number),
    (b"devpath", Substitution::Devpath),
    (b"id", Substitution::Id),
    (b"driver", Substitution::Driver),
    (b"attr", Substitution::Attr),
    (b"env", Substitution::Env),
    (b"major", Substitution::Major),
    (b"minor", Substitution::Minor),
    (b"result", Substitution::Result),
    (b"parent", Substitution::Parent),
    (b"name", Substitution::Name),
    (b"links", Substitution::Links),
    (b"root", Substitution::Root),
    (b"sysfs", Substitution::Refused),
    (b"sys", Substitution::Sys),
    (b"devnode", Substitution::Devnode),
    (b"tempnode", Substitution::Refused),
    (b"$", Substitution::Dollar),
];

/// The letters after a `%`.
const SHORT_NAMES: [(&[u8], Substitution); 14] = [
    (b"k", Substitution::Kernel),
    (b"n", Substitution::Number),
    (b"p", Substitution::Devpath),
    (b"b", Substitution::Id),
    (b"s", Substitution::Attr),
    (b"E", Substitution::Env),
    (b"M", Substitution::Major),
    (b"m", Substitution::Minor),
    (b"c", Substitution::Result),
    (b"P", Substitution::Parent),
    (b"r", Substitution::Root),
    (b"S", Substitution::Sys),
    (b"N", Substitution::Devnode),
    (b"%", Substitution::Percent),
];

/// The names after a `$` that the manual refuses and udev reads.
const OLD_NAMES: [(&[u8], Substitution); 2] = [
    (b"sysfs", Substitution::Attr),
    (b"tempnode", Substitution::Devnode),
];

/// The letters after a `%` that only udev knows.
const MORE_LETTERS: [(&[u8], Substitution); 3] = [
    (b"d", Substitution::Driver),
    (b"D", Substitution::Name),
    (b"L", Substitution::Links),
];

/// What the first row whose name begins the text asks for, and what is left after that name.
fn named<'a>(rows: &[(&[u8], Substitution)], text: &'a [u8]) -> Option<(Substitution, &'a [u8])>
    ensures { option_map (λ x. (x.0, x.1.now)) result ≡ named (map (λ row. (row.0.now, row.1)) rows.now) text.now }
{
    for row in rows {
        if text.starts_with(row.0) {
            let (_, rest) = text.split_at(row.0.len());
            return Some((row.1, rest));
        }
    }
    None
}

/// What the name after a `$` asks for, and what is left after the name.
#[tactic(auto, using(crate::proofs::FirstPieces::named_first, crate::proofs::FirstPieces::named_then))]
pub(crate) fn long_name(profile: Profile, text: &[u8]) -> Option<(Substitution, &[u8])>
    ensures { option_map (λ x. (x.0, x.1.now)) result ≡ named (long_names_as profile) text.now }
{
    match profile {
        Profile::Manual => named(&LONG_NAMES, text),
        Profile::Udev => match named(&OLD_NAMES, text) {
            Some(found) => Some(found),
            None => named(&LONG_NAMES, text),
        },
    }
}

/// What the letter after a `%` asks for, and what is left after the letter.
#[tactic(auto, using(crate::proofs::FirstPieces::named_first, crate::proofs::FirstPieces::named_then))]
pub(crate) fn short_name(profile: Profile, text: &[u8]) -> Option<(Substitution, &[u8])>
    ensures { option_map (λ x. (x.0, x.1.now)) result ≡ named (short_names_as profile) text.now }
{
    match profile {
        Profile::Manual => named(&SHORT_NAMES, text),
        Profile::Udev => match named(&MORE_LETTERS, text) {
            Some(found) => Some(found),
            None => named(&SHORT_NAMES, text),
        },
    }
}
