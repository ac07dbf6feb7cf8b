//! A table that keeps for each item where it comes from.
ghost use Rattle.std.specs.Prelude.{◌≡◌, [], is_some, None, Some, OnOk, option_map, unwrap_or};
ghost use Rattle.text_tables.specs.Pairs.{with_value};
ghost use Rattle.eval_sources.specs.Inner.{kept_after, kept_of, updated, updated_one, with_first};
ghost use Rattle.eval_sources.specs.Sources.{kept_in, source_by, source_in};

use crate::found::Found;
use eval_effects::Item;
use indexmap::IndexMap;
use rule_types::Rule;
use std::alloc::{AllocError, Global};
use std::marker::Model;
use std::mem;
use text_bytes::Bytes;

/// What is kept for an item: its value, and the rule that it comes from, if it comes from one.
#[derive(Drop)]
pub(crate) struct Kept<'a> {
    value: Bytes,
    rule: Option<&'a Rule>,
}

impl<'a> Model for Kept<'a> {
    ghost use Rattle.std.specs.Prelude.{option_map};
    ghost use Rattle.eval_sources.specs.Sources.{Kept};

    ghost Value = { Kept };

    ghost view = { λ k. (k.value, option_map (λ rule. rule.now) k.rule) };
}

/// What is kept, by the names of items: nothing for one that is no longer there.
#[derive(Drop)]
pub struct Sources<'a> {
    held: IndexMap<Vec<u8>, Option<Kept<'a>>>,
}

impl<'a> Model for Sources<'a> {
    ghost use Rattle.std.specs.Prelude.{map};
    ghost use Rattle.eval_sources.specs.Sources.{Held};

    ghost Value = { Held };

    ghost view = { λ s. map (λ e. (e.0.items, e.1)) s.held.entries };
}

/// What is kept, if a name is there and something is kept for it.
fn given<'s, 'a>(kept: Option<&'s Option<Kept<'a>>>) -> Option<&'s Kept<'a>>
    ensures { option_map (λ k. k.now) result ≡ unwrap_or (option_map (λ k. k.now) kept.entry) None }
{
    match kept {
        Some(kept) => kept.as_ref(),
        None => None,
    }
}

/// The rule that an item with a value comes from: the one that is kept for it if it is kept with that value, else
/// another one.
fn source_by<'a>(
    kept: Option<&Kept<'a>>,
    otherwise: Option<&'a Rule>,
    value: &[u8],
) -> Option<&'a Rule>
    ensures { option_map (λ rule. rule.now) result ≡ source_by (option_map (λ k. k.now) kept.entry) (option_map (λ rule. rule.now) otherwise.entry) value.now }
{
    match kept {
        Some(kept) if kept.value.as_slice() == value => kept.rule,
        _ => otherwise,
    }
}

impl<'a> Sources<'a> {
    /// Nothing is kept.
    pub(crate) fn new(alloc: Global) -> Sources<'a>
        ensures { result ≡ [] }
    {
        Sources {
            held: IndexMap::new(alloc),
        }
    }

    /// Returns what is kept for a name.
    fn get(&self, name: &[u8]) -> Option<&Kept<'a>>
        ensures { option_map (λ k. k.now) result ≡ kept_in self.now name.now }
    {
        given(self.held.get(name))
    }

    /// The rule that an item comes from: the one that is kept for it if it is kept with that value, else another
    /// one.
    fn source_in(&self, name: &[u8], value: &[u8], otherwise: Option<&'a Rule>) -> Option<&'a Rule>
        ensures { option_map (λ rule. rule.now) result ≡ source_in self.now (option_map (λ rule. rule.now) otherwise.entry) (name.now, value.now) }
    {
        source_by(self.get(name), otherwise, value)
    }

    /// The rule that the item with a name and a value comes from; `None` if it was there like this from the start,
    /// or is not there.
    pub fn rule_of(&self, name: &[u8], value: &[u8]) -> Option<&'a Rule>
        ensures { option_map (λ rule. rule.now) result ≡ source_in self.now None (name.now, value.now) }
    {
        self.source_in(name, value, None)
    }

    /// Whether something is kept for a name.
    fn contains(&self, name: &[u8]) -> bool
        ensures { result ≡ is_some (kept_in self.now name.now) }
    {
        self.get(name).is_some()
    }

    /// Keeps something for a name, or nothing, instead of what was kept for it.
    fn put(&mut self, name: Vec<u8>, kept: Option<Kept<'a>>) -> Result<(), AllocError>
        ensures { OnOk result (self.new ≡ with_value self.old name.items kept.entry) }
    {
        self.held.insert(name, kept)?;
        Ok(())
    }

    /// Keeps something for a name, unless the name is kept.
    fn add(&mut self, name: Bytes, kept: Kept<'a>) -> Result<(), AllocError>
        ensures { OnOk result (self.new ≡ with_first self.old name kept.entry) }
    {
        if self.contains(name.as_slice()) {
            return Ok(());
        }
        self.put(name.into_vec(), Some(kept))
    }

    /// Keeps an item that is there after a rule, or at the start, by what was kept before.
    fn keep(
        &mut self,
        before: &Sources<'a>,
        rule: Option<&'a Rule>,
        item: Item,
    ) -> Result<(), AllocError>
        ensures { OnOk result (self.new ≡ with_first self.old item.0 (kept_of before.now (option_map (λ r. r.now) rule.entry) item)) }
    {
        let (name, value) = item.into_parts();
        let rule = before.source_in(name.as_slice(), value.as_slice(), rule);
        self.add(name, Kept { value, rule })
    }

    /// Keeps the items that are there after one more rule, and no others.
    #[tactic(auto, unfolding(crate::specs::Inner::kept_after))]
    pub(crate) fn report(
        &mut self,
        alloc: Global,
        rule: Option<&'a Rule>,
        items: Vec<Item>,
    ) -> Result<(), AllocError>
        ensures { OnOk result (self.new ≡ kept_after self.old (option_map (λ r. r.now) rule.entry) items.items) }
    {
        let mut kept = Sources::new(alloc);
        for item in items {
            kept.keep(self, rule, item)?;
        }
        drop(mem::replace(self, kept));
        Ok(())
    }

    /// Keeps the value that an item has after one more rule, if it has one.
    fn update_one(&mut self, rule: Option<&'a Rule>, found: Found) -> Result<(), AllocError>
        ensures { OnOk result (self.new ≡ updated_one self.old (option_map (λ r. r.now) rule.entry) found) }
    {
        let (name, value) = found.into_parts();
        match value {
            None => self.put(name.into_vec(), None),
            Some(value) => {
                let rule = self.source_in(name.as_slice(), value.as_slice(), rule);
                self.put(name.into_vec(), Some(Kept { value, rule }))
            }
        }
    }

    /// Keeps the values that these items have after one more rule; all others are as they were.
    #[tactic(auto, unfolding(crate::specs::Inner::updated))]
    pub(crate) fn update(
        &mut self,
        rule: Option<&'a Rule>,
        found: Vec<Found>,
    ) -> Result<(), AllocError>
        ensures { OnOk result (self.new ≡ updated self.old (option_map (λ r. r.now) rule.entry) found.items) }
    {
        for one in found {
            self.update_one(rule, one)?;
        }
        Ok(())
    }
}
