//! What is reported for the tokens of one rule, two by two.
ghost use Rattle.std.specs.Prelude.{Bool, ◌≡◌, [], ◌+◌, ◌<◌, ◌^◌, IfOk, OnOk, Some, length, option_map};
ghost use Rattle.rule_types.specs.Tokens.{tokens_in};
ghost use Rattle.rule_remarks.specs.Known.{chance_of, known_of, may_add};
ghost use Rattle.rule_remarks.specs.Pairs.{are_of_kind, is_reported, pair_findings, pairs_from, pairs_with, reported_for, with_kind};

use crate::accounts::Accounts;
use crate::known::chances_of;
use crate::pair_finding::{PairFinding, PairKind};
use crate::relations::{is_against, is_same};
use crate::said::{Said, said_of};
use rule_types::WrittenPart;
use std::alloc::{AllocError, Global};

/// What is reported for the tokens of one rule: the first pair of tokens that say the same, and the first pair that
/// exclude each other, in the order in which the pairs are written.
///
/// Of many tokens, one is compared with those after it only if what is known of them lets a pair through (`known`). The time grows with
/// the square of the number of tokens only if these are matches of one kind whose alternatives overlap two by two, and none
/// of them is in all.
#[tactic(auto, unfolding(crate::specs::Pairs::pair_findings))]
pub(crate) fn pair_findings(
    alloc: Global,
    accounts: &Accounts,
    parts: &[WrittenPart<'_>],
) -> Result<Vec<PairFinding>, AllocError>
    ensures { IfOk result (λ reported. reported.items ≡ pair_findings accounts.now (tokens_in parts.now)) }
{
    let mut said = Vec::with_capacity(alloc, parts.len())?;
    for written in parts {
        said.push(said_of(alloc, accounts, &written.token)?)?;
    }
    reported_for(alloc, &said)
}

/// What is reported for tokens.
#[tactic(auto, using(crate::proofs::Reporting::next_token, crate::proofs::Reporting::no_token, crate::proofs::Chances::suffix_next))]
fn reported_for(alloc: Global, said: &[Option<Said>]) -> Result<Vec<PairFinding>, AllocError>
    ensures { IfOk result (λ reported. reported.items ≡ reported_for [] (pairs_from 0 said.now)) }
{
    let chances = chances_of(alloc, said)?;
    let mut reported = Vec::new(alloc);
    let mut left = said;
    while let Some((earlier, following)) = left.split_first() {
        report_pairs(
            &mut reported,
            chances.get(following.len()),
            earlier,
            following,
            said.len() - following.len(),
        )?;
        left = following;
    }
    Ok(reported)
}

/// Whether a token may add to what is reported, by whether there may be one after it that says the same, and one that
/// excludes it.
fn may_add(chance: Option<&(bool, bool)>, reported: &[PairFinding]) -> bool
    ensures { result ≡ may_add (option_map (λ c. c.now) chance.entry) reported.now }
{
    match chance {
        None => true,
        Some((same, against)) => {
            (*same && !is_reported(PairKind::Same, reported))
                || (*against && !is_reported(PairKind::Against, reported))
        }
    }
}

/// Adds what is reported for a token with each of those after it, of which the first is at a place.
#[tactic(auto, using(crate::proofs::Reporting::next_pair, crate::proofs::Chances::nothing_added))]
fn report_pairs(
    reported: &mut Vec<PairFinding>,
    chance: Option<&(bool, bool)>,
    earlier: &Option<Said>,
    following: &[Option<Said>],
    first: usize,
) -> Result<(), AllocError>
    requires within { first + length following.now < 2 ^ 64 }
    requires known { (c : Bool × Bool) → option_map (λ x. x.now) chance ≡ Some c → c ≡ chance_of (known_of following.now) earlier.now }
    ensures { OnOk result (reported.new.items ≡ reported_for reported.old.items (pairs_with earlier.now first following.now)) }
{
    if !may_add(chance, reported) {
        return Ok(());
    }
    let mut place = first;
    for later in following {
        report_kind(reported, PairKind::Same, earlier, later, place)?;
        report_kind(reported, PairKind::Against, earlier, later, place)?;
        place += 1;
    }
    Ok(())
}

/// Adds two tokens, of which the later one is at a place, if they are a pair of a kind that is not reported yet.
fn report_kind(
    reported: &mut Vec<PairFinding>,
    kind: PairKind,
    earlier: &Option<Said>,
    later: &Option<Said>,
    place: usize,
) -> Result<(), AllocError>
    ensures { OnOk result (reported.new.items ≡ with_kind kind reported.old.items (record { earlier = earlier.now; later = later.now; place = place })) }
{
    if !is_reported(kind, reported) && are_of_kind(kind, earlier, later) {
        reported.push(PairFinding { kind, token: place })?;
    }
    Ok(())
}

/// Whether a kind is among what is reported.
fn is_reported(kind: PairKind, reported: &[PairFinding]) -> bool
    ensures { result ≡ is_reported kind reported.now }
{
    reported.iter().any(|finding| kind == finding.kind)
}

/// Whether two tokens are a pair of a kind.
fn are_of_kind(kind: PairKind, earlier: &Option<Said>, later: &Option<Said>) -> bool
    ensures { result ≡ are_of_kind kind earlier.now later.now }
{
    match (earlier, later) {
        (Some(earlier), Some(later)) => match kind {
            PairKind::Same => is_same(earlier, later),
            PairKind::Against => is_against(earlier, later),
        },
        _ => false,
    }
}
