//! W8, W9, W10 and W26: names that are given to a device, and a name in quotes.
ghost use Rattle.std.specs.Prelude.{◌≡◌, codes, nat_eq, option_map};
ghost use Rattle.std.specs.List.{list_any, slice_split, starts_with};
ghost use Rattle.text_bytes.specs.Names.{is_blank};
ghost use Rattle.rule_lints.specs.Names.{dev_link, excludes_net, is_outside_net, link_given, meets, name_given, quoted_name};

use crate::parts::change_of;
use crate::texts::has_byte;
use rule_tokens::Token;
use rule_types::{Change, Comparison, MatchOperator, Part, PlainKey, Target, WrittenPart};
use text_bytes::{Profile, is_blank};

/// Whether a rule holds for no network device.
pub(crate) fn is_outside_net(tokens: &[WrittenPart<'_>]) -> bool
    ensures { result ≡ is_outside_net tokens.now }
{
    tokens.iter().any(|written| excludes_net(&written.part))
}

/// Whether a part is a match of SUBSYSTEM that does not hold for `net`.
fn excludes_net(part: &Part) -> bool
    ensures { result ≡ excludes_net part.now }
{
    match part {
        Part::Plain(asked) => matches!(asked.key, PlainKey::Subsystem)
            && !meets(b"net", &asked.wanted),
        _ => false,
    }
}

/// Whether a comparison holds for a text.
fn meets(text: &[u8], wanted: &Comparison) -> bool
    ensures { result ≡ meets text.now wanted.now }
{
    let fits = wanted.choice.fits(text);
    match wanted.operator {
        MatchOperator::Equal => fits,
        MatchOperator::NotEqual => !fits,
    }
}

/// The value with which W8 is reported, in a rule that holds for no network device: the text that a part gives to NAME.
pub(crate) fn name_given(part: &Part) -> Option<&[u8]>
    ensures { option_map (λ text. text.now) result ≡ name_given part.now }
{
    match change_of(part)? {
        Change::Text(Target::Name, template) => Some(template.written()),
        _ => None,
    }
}

/// The value with which W9 is reported: links, one of which begins with `/dev/`. udev itself leaves that out.
pub(crate) fn dev_link(profile: Profile, part: &Part) -> Option<&[u8]>
    ensures { option_map (λ text. text.now) result ≡ dev_link profile part.now }
{
    let links = link_given(part)?;
    match profile {
        Profile::Manual => has_dev(links).then_some(links),
        Profile::Udev => None,
    }
}

/// Whether one of the links begins with `/dev/`.
fn has_dev(links: &[u8]) -> bool
    ensures { result ≡ list_any (λ link. starts_with nat_eq link (codes "/dev/")) (slice_split is_blank links.now) }
{
    links
        .split(|byte| is_blank(*byte))
        .any(|link| link.starts_with(b"/dev/"))
}

/// The links with which W26 is reported, in a rule for network devices alone: as they have no node, no link is made.
pub(crate) fn link_given(part: &Part) -> Option<&[u8]>
    ensures { option_map (λ text. text.now) result ≡ link_given part.now }
{
    match change_of(part)? {
        Change::Text(Target::Symlink, template) => Some(template.written()),
        _ => None,
    }
}

/// The text in braces with which W10 is reported.
pub(crate) fn quoted_name<'a>(token: &Token<'a>) -> Option<&'a [u8]>
    ensures { option_map (λ text. text.now) result ≡ quoted_name token.now }
{
    let name = token.attribute()?;
    has_byte(b'"', name).then_some(name)
}
