//! The known name that is nearest to a word.
ghost use Rattle.std.specs.Prelude.{◌≡◌, map, nat_le, option_map, IfOk};
ghost use Rattle.std.specs.List.{find};
ghost use Rattle.engine_formats.specs.Near.{distance, farthest, nearest, reach};

use std::alloc::{AllocError, Global};
use strsim::generic_levenshtein;
use text_bytes::small;
use text_tables::is_among;

/// How many bytes have to be put in, taken out or replaced at least to come from a name to a word; the case of letters
/// does not count.
#[tactic(auto, unfolding(crate::specs::Near::distance))]
fn distance(alloc: Global, name: &[u8], word: &[u8]) -> Result<usize, AllocError>
    ensures { IfOk result (λ d. d ≡ distance name.now word.now) }
{
    let name = small(alloc, name)?;
    let word = small(alloc, word)?;
    generic_levenshtein(alloc, name.as_slice(), word.as_slice())
}

/// How far a name may be from a word that is meant as it.
fn farthest(word: &[u8]) -> usize
    ensures { result ≡ farthest word.now }
{
    if word.len() <= 3 {
        1
    } else if word.len() <= 6 {
        2
    } else {
        3
    }
}

/// The least of a number and of the distances of names from a word.
fn reach(alloc: Global, most: usize, names: &[&[u8]], word: &[u8]) -> Result<usize, AllocError>
    ensures { IfOk result (λ least. least ≡ reach most (map (λ name. name.now) names.now) word.now) }
{
    let mut least = most;
    for name in names {
        least = least.min(distance(alloc, name, word)?);
    }
    Ok(least)
}

/// The first of these names that is no farther from a word than this.
fn first_within<'n>(
    alloc: Global,
    most: usize,
    names: &[&'n [u8]],
    word: &[u8],
) -> Result<Option<&'n [u8]>, AllocError>
    ensures { IfOk result (λ found. option_map (λ name. name.now) found
        ≡ find (λ name. nat_le (distance name word.now) most) (map (λ name. name.now) names.now)) }
{
    for name in names {
        if distance(alloc, name, word)? <= most {
            return Ok(Some(*name));
        }
    }
    Ok(None)
}

/// The first of the names that are nearest to a word, if they are near it and none of them is the word itself: at most
/// one byte is put in, taken out or replaced for a word of up to three bytes, two for one of up to six, and three for a
/// longer one, and letters in another case are the same.
///
/// # Errors
///
/// If memory is refused.
#[tactic(auto, unfolding(crate::specs::Near::nearest))]
pub fn nearest<'n>(
    alloc: Global,
    names: &[&'n [u8]],
    word: &[u8],
) -> Result<Option<&'n [u8]>, AllocError>
    ensures { IfOk result (λ found. option_map (λ name. name.now) found
        ≡ nearest (map (λ name. name.now) names.now) word.now) }
{
    if is_among(names, word) {
        return Ok(None);
    }
    let most = reach(alloc, farthest(word), names, word)?;
    first_within(alloc, most, names, word)
}
