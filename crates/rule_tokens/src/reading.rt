//! The pieces of a text, one at a time.
//!
//! Each function reads one part at the front of what is left and returns it with what is left after it, so that the
//! reader of the whole has only to put the pieces one after another.
ghost use Rattle.std.specs.Prelude.{◌≡◌, ◌≤◌, ◌∷◌, IfOk, IfSome, length, option_map};
ghost use Rattle.std.specs.List.{prefix_len};
ghost use Rattle.rule_tokens.specs.Cuts.{copied};
ghost use Rattle.rule_tokens.specs.Faults.{Gives, GivesJust};
ghost use Rattle.rule_tokens.specs.TemplateReading.{argument_of, asked_as, asked_with, first_as, first_at, is_faulty, is_no_sign, is_twice};
ghost use Rattle.rule_tokens.specs.TemplateReading.{kept, plain_first, result_piece, substituted_by, udev_asked, udev_first};

use crate::braces::braced;
use crate::cut::Cut;
use crate::fault::TemplateFault;
use crate::names::{Substitution, long_name, short_name};
use crate::number::{udev_word_of, word_of};
use crate::piece::Piece;
use std::alloc::Global;
use text_bytes::{Profile, begins_with, split_once};

/// The most bytes that udev takes in braces.
const MAX_IN_BRACES: usize = 1023;

fn is_no_sign(byte: u8) -> bool
    ensures { result ≡ is_no_sign byte }
{
    byte != b'$' && byte != b'%'
}

/// How many bytes come before the next sign.
fn plain_len(text: &[u8]) -> usize
    ensures value { result ≡ prefix_len is_no_sign text.now }
    ensures within { result ≤ length text.now }
{
    text.iter().take_while(|byte| is_no_sign(**byte)).count()
}

/// What `$result` or `%c` asks for, and what is left.
#[tactic(auto, unfolding(crate::specs::TemplateReading::result_piece))]
fn result_piece(after: &[u8]) -> Result<(Cut<'_>, &[u8]), TemplateFault>
    ensures { GivesJust (λ x. (copied x.0, x.1.now)) result (result_piece after.now) }
{
    let Some((b'{', rest)) = after.split_first() else {
        return Ok((Cut::Other(Piece::Result), after));
    };
    let Some((content, left)) = split_once(b'}', rest) else {
        return Err(TemplateFault::Brace);
    };
    match word_of(content) {
        Some(piece) => Ok((Cut::Other(piece), left)),
        None => Err(TemplateFault::Number),
    }
}

/// What `$attr` or `%s` asks for, and what is left.
#[tactic(auto, unfolding(crate::specs::TemplateReading::argument_of))]
fn attr_piece(after: &[u8]) -> Result<(Cut<'_>, &[u8]), TemplateFault>
    ensures { GivesJust (λ x. (copied x.0, x.1.now)) result (argument_of Substitution.Attr after.now) }
{
    let (name, left) = braced(after)?;
    Ok((Cut::Attr(name), left))
}

/// What `$env` or `%E` asks for, and what is left.
#[tactic(auto, unfolding(crate::specs::TemplateReading::argument_of))]
fn env_piece(after: &[u8]) -> Result<(Cut<'_>, &[u8]), TemplateFault>
    ensures { GivesJust (λ x. (copied x.0, x.1.now)) result (argument_of Substitution.Env after.now) }
{
    let (name, left) = braced(after)?;
    Ok((Cut::Env(name), left))
}

/// What a substitution asks for, by what follows its name, and what is left.
#[tactic(auto, unfolding(crate::specs::TemplateReading::argument_of))]
fn argument_of(name: Substitution, after: &[u8]) -> Result<(Cut<'_>, &[u8]), TemplateFault>
    ensures { GivesJust (λ x. (copied x.0, x.1.now)) result (argument_of name after.now) }
{
    match name {
        Substitution::Kernel => Ok((Cut::Other(Piece::Kernel), after)),
        Substitution::Number => Ok((Cut::Other(Piece::Number), after)),
        Substitution::Devpath => Ok((Cut::Other(Piece::Devpath), after)),
        Substitution::Id => Ok((Cut::Other(Piece::Id), after)),
        Substitution::Driver => Ok((Cut::Other(Piece::Driver), after)),
        Substitution::Attr => attr_piece(after),
        Substitution::Env => env_piece(after),
        Substitution::Major => Ok((Cut::Other(Piece::Major), after)),
        Substitution::Minor => Ok((Cut::Other(Piece::Minor), after)),
        Substitution::Result => result_piece(after),
        Substitution::Parent => Ok((Cut::Other(Piece::Parent), after)),
        Substitution::Name => Ok((Cut::Other(Piece::Name), after)),
        Substitution::Links => Ok((Cut::Other(Piece::Links), after)),
        Substitution::Root => Ok((Cut::Other(Piece::Root), after)),
        Substitution::Sys => Ok((Cut::Other(Piece::Sys), after)),
        Substitution::Devnode => Ok((Cut::Other(Piece::Devnode), after)),
        Substitution::Dollar => Ok((Cut::Plain(b"$"), after)),
        Substitution::Percent => Ok((Cut::Plain(b"%"), after)),
        Substitution::Refused => Err(TemplateFault::Unknown),
    }
}

/// What a substitution asks udev for, by what its braces hold and what is left after them.
#[tactic(auto, unfolding(crate::specs::TemplateReading::asked_with))]
fn asked_with<'a>(
    name: Substitution,
    content: &'a [u8],
    rest: &'a [u8],
) -> Result<(Cut<'a>, &'a [u8]), TemplateFault>
    ensures { GivesJust (λ x. (copied x.0, x.1.now)) result (asked_with name content.now rest.now) }
{
    match name {
        Substitution::Attr => Ok((Cut::Attr(content), rest)),
        Substitution::Env => Ok((Cut::Env(content), rest)),
        Substitution::Result => match udev_word_of(content) {
            Some(piece) => Ok((Cut::Other(piece), rest)),
            None => Err(TemplateFault::Number),
        },
        _ => argument_of(name, rest),
    }
}

/// Whether a sign is written twice.
fn is_twice(name: Substitution) -> bool
    ensures { result ≡ is_twice name }
{
    match name {
        Substitution::Dollar => true,
        Substitution::Percent => true,
        _ => false,
    }
}

/// What a substitution asks udev for, by what follows its name, and what is left.
#[tactic(auto, unfolding(crate::specs::TemplateReading::udev_asked))]
fn udev_asked(name: Substitution, after: &[u8]) -> Result<(Cut<'_>, &[u8]), TemplateFault>
    ensures { GivesJust (λ x. (copied x.0, x.1.now)) result (udev_asked name after.now) }
{
    if is_twice(name) || !begins_with(b'{', after) {
        return argument_of(name, after);
    }
    let (content, rest) = braced(after)?;
    if content.len() > MAX_IN_BRACES {
        return Err(TemplateFault::Brace);
    }
    asked_with(name, content, rest)
}

/// The piece that the name after a sign asks for, and what is left.
fn substituted<'a>(
    profile: Profile,
    name: Option<(Substitution, &'a [u8])>,
) -> Result<(Cut<'a>, &'a [u8]), TemplateFault>
    ensures { GivesJust (λ x. (copied x.0, x.1.now)) result (substituted_by (asked_as profile) (option_map (λ x. (x.0, x.1.now)) name.entry)) }
{
    let Some((name, after)) = name else {
        return Err(TemplateFault::Unknown);
    };
    match profile {
        Profile::Manual => argument_of(name, after),
        Profile::Udev => udev_asked(name, after),
    }
}

/// The plain bytes at the front of a text, whose first byte is passed separately, and what is left.
#[tactic(auto, using(crate::proofs::TemplatePieces::take_more, crate::proofs::TemplatePieces::drop_more))]
fn plain_piece<'a>(
    text: &'a [u8],
    byte: u8,
    after: &[u8],
) -> Result<(Cut<'a>, &'a [u8]), TemplateFault>
    requires { text.now ≡ byte ∷ after.now }
    ensures { GivesJust (λ x. (copied x.0, x.1.now)) result (plain_first byte after.now) }
{
    let (plain, left) = text.split_at(plain_len(after) + 1);
    Ok((Cut::Plain(plain), left))
}

/// The piece at the front of a text, whose first byte is passed separately, and what is left.
#[tactic(auto, using(crate::proofs::FirstPieces::prefix_shorter))]
fn cut_of<'a>(
    profile: Profile,
    text: &'a [u8],
    byte: u8,
    after: &'a [u8],
) -> Result<(Cut<'a>, &'a [u8]), TemplateFault>
    requires { text.now ≡ byte ∷ after.now }
    ensures value { GivesJust (λ x. (copied x.0, x.1.now)) result (first_as profile byte after.now) }
    ensures shorter { IfOk result (λ x. length x.1.now ≤ length after.now) }
{
    match byte {
        b'$' => substituted(profile, long_name(profile, after)),
        b'%' => substituted(profile, short_name(profile, after)),
        _ => plain_piece(text, byte, after),
    }
}

/// The piece at the front of a text, by the manual, and what is left; the first byte is passed separately.
#[tactic(auto, unfolding(crate::specs::TemplateReading::first_at))]
pub(crate) fn first_piece<'a>(
    alloc: Global,
    text: &'a [u8],
    byte: u8,
    after: &'a [u8],
) -> Result<(Piece, &'a [u8]), TemplateFault>
    requires { text.now ≡ byte ∷ after.now }
    ensures value { Gives (λ x. (x.0, x.1.now)) result (first_at byte after.now) }
    ensures shorter { IfOk result (λ x. length x.1.now ≤ length after.now) }
{
    let (cut, left) = cut_of(Profile::Manual, text, byte, after)?;
    Ok((cut.copied(alloc)?, left))
}

/// What udev takes for the piece at the front of a text, whose first byte is passed separately, and what it reads
/// on; `None` if it stops.
#[tactic(auto, unfolding(crate::specs::TemplateReading::udev_first))]
pub fn kept<'a>(text: &'a [u8], byte: u8, after: &'a [u8]) -> Option<(Cut<'a>, &'a [u8])>
    requires { text.now ≡ byte ∷ after.now }
    ensures value { option_map (λ x. (copied x.0, x.1.now)) result ≡ kept byte after.now (udev_first byte after.now) }
    ensures shorter { IfSome result (λ x. length x.1.now ≤ length after.now) }
{
    match cut_of(Profile::Udev, text, byte, after) {
        Ok(found) => Some(found),
        Err(TemplateFault::Unknown) => {
            let (sign, _) = text.split_at(1);
            Some((Cut::Plain(sign), after))
        }
        Err(_) => None,
    }
}

/// Whether udev reports a fault in a text: an unknown name or a sign alone, braces that are empty, open or longer
/// than 1,023 bytes, no name after `$attr`, `$sysfs` or `$env`, or braces after `$result` that hold no number.
#[tactic(auto, unfolding(crate::specs::TemplateReading::udev_first))]
pub fn is_faulty(text: &[u8]) -> bool
    ensures { result ≡ is_faulty text.now }
{
    let mut rest = text;
    while let Some((byte, after)) = rest.split_first() {
        match cut_of(Profile::Udev, rest, *byte, after) {
            Ok((_, left)) => rest = left,
            Err(_) => return true,
        }
    }
    false
}
