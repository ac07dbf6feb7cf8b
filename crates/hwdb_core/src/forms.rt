//! D1 to D4: a match beside the modaliases that its prefix can have.
ghost use Rattle.std.specs.Prelude.{◌≡◌, map, option_map};
ghost use Rattle.hwdb_core.specs.Forms.{digit_step, ends_well, fault_in_form, fault_met, form_among, has_sign, has_swapped};
ghost use Rattle.hwdb_core.specs.Forms.{is_capital_digit, is_digit_place, is_hexadecimal, is_small_digit, is_swapped, is_unknown, is_written};
ghost use Rattle.hwdb_core.specs.Forms.{letter_step, match_fault, meeting_of, step_at};

use crate::lint::DatabaseLint;
use crate::modaliases::{FIRST_WORDS, MODALIASES, Modalias};
use text_bytes::{ends_in, is_digit, up_to};
use text_tables::is_among;

/// What a byte of a match means for what follows.
#[derive(Clone, Copy, PartialEq, Eq)]
pub(crate) enum Step {
    /// It fits, but for the case of a digit; the next byte is looked at.
    On,
    /// What follows can be anything.
    Free,
    /// It does not fit.
    Other,
}

/// How a match meets the form of its modaliases, whatever the case of its digits.
#[derive(Clone, Copy, PartialEq, Eq)]
pub(crate) enum Meeting {
    /// A modalias of the form can fit it.
    Fits,
    /// It ends before the form does.
    Short,
    /// A byte of it is another one.
    Other,
}

/// Whether a byte is a digit or a capital letter from `A` to `F`.
fn is_capital_digit(byte: u8) -> bool
    ensures { result ≡ is_capital_digit byte }
{
    is_digit(byte) || (b'A' <= byte && byte <= b'F')
}

/// Whether a byte is a digit or a small letter from `a` to `f`.
pub(crate) fn is_small_digit(byte: u8) -> bool
    ensures { result ≡ is_small_digit byte }
{
    is_digit(byte) || (b'a' <= byte && byte <= b'f')
}

/// Whether a place of a form is a digit.
fn is_digit_place(place: u8) -> bool
    ensures { result ≡ is_digit_place place }
{
    place == b'X' || place == b'x'
}

/// Whether a byte is a hexadecimal digit in either case.
fn is_hexadecimal(byte: u8) -> bool
    ensures { result ≡ is_hexadecimal byte }
{
    is_capital_digit(byte) || is_small_digit(byte)
}

/// Whether modaliases of a form have this byte at a place of it.
fn is_written(place: u8, byte: u8) -> bool
    ensures { result ≡ is_written place byte }
{
    if place == b'X' {
        is_capital_digit(byte)
    } else if place == b'x' {
        is_small_digit(byte)
    } else {
        byte == place
    }
}

/// Whether a byte is a digit in the other case than its place has.
fn is_swapped(place: u8, byte: u8) -> bool
    ensures { result ≡ is_swapped place byte }
{
    is_hexadecimal(byte) && !is_written(place, byte) && is_digit_place(place)
}

/// What a byte of a match means at a place of the form of its modaliases that is a digit, if it is not one behind which
/// anything can come.
fn digit_step(byte: u8) -> Step
    ensures { result ≡ digit_step byte }
{
    if byte == b'?' || is_hexadecimal(byte) {
        Step::On
    } else {
        Step::Other
    }
}

/// The same at a place that is no digit.
fn letter_step(place: u8, byte: u8) -> Step
    ensures { result ≡ letter_step place byte }
{
    if byte == b'?' {
        Step::Free
    } else if byte == place {
        Step::On
    } else if byte == b':' {
        Step::Free
    } else {
        Step::Other
    }
}

/// What a byte of a match means at a place of the form of its modaliases.
fn step_at(place: u8, byte: u8) -> Step
    ensures { result ≡ step_at place byte }
{
    if byte == b'*' || byte == b'[' || byte == b'\\' {
        Step::Free
    } else if is_digit_place(place) {
        digit_step(byte)
    } else {
        letter_step(place, byte)
    }
}

/// How what a match has after its prefix meets a form.
fn meeting_of(form: &[u8], text: &[u8]) -> Meeting
    ensures { result ≡ meeting_of form.now text.now }
{
    let mut rest = text;
    for place in form {
        let place = *place;
        match rest.split_first() {
            Some((byte, following)) => {
                match step_at(place, *byte) {
                    Step::On => rest = following,
                    Step::Free => return Meeting::Fits,
                    Step::Other => return Meeting::Other,
                }
            }
            None => return Meeting::Short,
        }
    }
    Meeting::Fits
}

/// Whether a digit of what a match has after its prefix is in the other case than the form has it.
fn has_swapped(form: &[u8], text: &[u8]) -> bool
    ensures { result ≡ has_swapped form.now text.now }
{
    let mut rest = text;
    for place in form {
        let place = *place;
        match rest.split_first() {
            Some((byte, following)) => {
                match step_at(place, *byte) {
                    Step::On if is_swapped(place, *byte) => return true,
                    Step::On => rest = following,
                    Step::Free | Step::Other => return false,
                }
            }
            None => return false,
        }
    }
    false
}

/// Whether a match ends so that a modalias that ends in `:` can fit it.
fn ends_well(text: &[u8]) -> bool
    ensures { result ≡ ends_well text.now }
{
    ends_in(b'*', text) || ends_in(b':', text) || ends_in(b'?', text) || ends_in(b']', text)
}

/// The first of these forms whose prefix a match begins with.
fn form_among<'m>(forms: &'m [Modalias], text: &[u8]) -> Option<&'m Modalias>
    ensures { option_map (λ m. (m.now.0.now, m.now.1.now, m.now.2)) result ≡ form_among (map (λ m. (m.0.now, m.1.now, m.2)) forms.now) text.now }
{
    for form in forms {
        if text.starts_with(form.0) {
            return Some(form);
        }
    }
    None
}

/// Whether a byte of a text means something other than itself.
fn has_sign(text: &[u8]) -> bool
    ensures { result ≡ has_sign text.now }
{
    text.iter().any(|byte| *byte == b'*' || *byte == b'?' || *byte == b'[' || *byte == b'\\')
}

/// Whether nothing is known to look up what a match begins with.
fn is_unknown(text: &[u8]) -> bool
    ensures { result ≡ is_unknown text.now }
{
    let word = up_to(b':', text);
    !has_sign(word) && !is_among(&FIRST_WORDS, word)
}

/// Why no modalias of a form fits a match, by how it meets the form, whether a digit has the other case, and whether
/// its end lacks what modaliases end in.
fn fault_met(meeting: Meeting, swapped: bool, lacks_end: bool) -> Option<DatabaseLint>
    ensures { result ≡ fault_met meeting swapped lacks_end }
{
    match meeting {
        Meeting::Other => Some(DatabaseLint::NoModalias),
        _ if swapped => Some(DatabaseLint::DigitCase),
        Meeting::Short => Some(DatabaseLint::EndMissing),
        Meeting::Fits if lacks_end => Some(DatabaseLint::EndMissing),
        Meeting::Fits => None,
    }
}

/// Why no modalias of a form fits a match.
#[tactic(auto, using(std::proofs::lemmas::List::drop_min))]
fn fault_in_form(form: &Modalias, text: &[u8]) -> Option<DatabaseLint>
    ensures { result ≡ fault_in_form (form.now.0.now, form.now.1.now, form.now.2) text.now }
{
    let (_, following) = text.split_at(form.0.len().min(text.len()));
    let swapped = has_swapped(form.1, following);
    fault_met(
        meeting_of(form.1, following),
        swapped,
        form.2 && !ends_well(text),
    )
}

/// Why no modalias fits a match, if that is known.
pub(crate) fn match_fault(text: &[u8]) -> Option<DatabaseLint>
    ensures { result ≡ match_fault text.now }
{
    match form_among(&MODALIASES, text) {
        Some(form) => fault_in_form(form, text),
        None if is_unknown(text) => Some(DatabaseLint::UnknownPrefix),
        None => None,
    }
}
