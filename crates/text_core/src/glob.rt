//! Whether a text fits a list of items, without allocating and in time at most items times text.
//!
//! The search goes back only to the last `Many`: what fitted before that still fits, so the search keeps one place,
//! and each start after it is tried once.
ghost use Rattle.std.specs.Prelude.{◌≡◌, ◌↔◌, IsTrue, map};
ghost use Rattle.text_core.specs.Fits.{fits, some_suffix};
ghost use Rattle.text_core.specs.Items.{takes};
ghost use Rattle.text_core.specs.Stops.{StopsAt};
ghost use Rattle.text_core.specs.declared.item.Item.{Item};
ghost use Rattle.text_core.specs.declared.item.Item.TheVariants.{Many};

/// An item, in one of the forms in which patterns hold them.
pub(crate) trait AsItem {
    /// The item.
    ghost item: { Self → Item };

    /// Whether it is `Many`.
    fn is_many(&self) -> bool
        ensures { IsTrue result ↔ (item self.now ≡ Many) };

    /// Whether it takes this one byte; false of `Many`, which is no item of one byte.
    fn takes(&self, byte: u8) -> bool
        ensures { result ≡ takes (item self.now) byte };
}

/// Where the items up to the next `Many` lead.
enum Stop<'a, T> {
    /// Items and text ended together.
    Whole,
    /// An item did not take its byte, or one of the two ended first.
    Fails,
    /// The items after the `Many`, and the text that is left there.
    Star(&'a [T], &'a [u8]),
}

fn run<'a, T: AsItem>(mut items: &'a [T], mut text: &'a [u8]) -> Stop<'a, T>
    ensures { StopsAt T.item items.now text.now result }
{
    while let Some((item, after)) = items.split_first() {
        if item.is_many() {
            return Stop::Star(after, text);
        }
        match text.split_first() {
            Some((byte, more)) if item.takes(*byte) => {
                items = after;
                text = more;
            }
            _ => return Stop::Fails,
        }
    }
    if text.is_empty() {
        Stop::Whole
    } else {
        Stop::Fails
    }
}

/// Whether the text fits the items.
pub(crate) fn fits<T: AsItem>(items: &[T], text: &[u8]) -> bool
    ensures { result ≡ fits (map T.item items.now) text.now }
{
    match run(items, text) {
        Stop::Whole => true,
        Stop::Fails => false,
        Stop::Star(after, rest) => fits_somewhere(after, rest),
    }
}

/// Whether some suffix of the text fits the items.
fn fits_somewhere<'a, T: AsItem>(mut items: &'a [T], mut text: &'a [u8]) -> bool
    ensures { result ≡ some_suffix (fits (map T.item items.now)) text.now }
{
    loop {
        match run(items, text) {
            Stop::Whole => return true,
            Stop::Star(after, rest) => {
                items = after;
                text = rest;
            }
            Stop::Fails => match text.split_first() {
                None => return false,
                Some((_, later)) => text = later,
            },
        }
    }
}
