//! Entries in a list, in a trie and in an index: which of them answers, and how many nodes are walked for it.
use std::alloc::{AllocError, Global};
use std::cmp::Ordering;
use std::test::Fail;
use text_core::{Bytes, Item, PackedPattern};
use trie_build::{Index, Nodes, Trie, compare_from, compare_labels, write_index};
use trie_nodes::{Entry, Lookup, PlainDb, SharedBytes, Sourced, rising};

/// A property: its pattern, its key and its value.
type Property<'a> = (&'a [u8], &'a [u8], &'a [u8]);

/// A pattern as an entry holds it.
fn packed(alloc: Global, text: &[u8]) -> Result<PackedPattern, Fail> {
    let pattern = PackedPattern::read(alloc, text).map_err(|_fault| "no pattern")?;
    Ok(pattern)
}

/// The entry of a property in t.hwdb, whose line is its order.
fn entry(alloc: Global, property: Property<'_>, order: u32) -> Result<Entry, Fail> {
    let (pattern, key, value) = property;
    Ok(Entry {
        pattern: packed(alloc, pattern)?,
        key: SharedBytes::copy_of(alloc, key)?,
        value: Bytes::copy_of(alloc, value)?,
        order,
        file: SharedBytes::copy_of(alloc, b"t.hwdb")?,
        line: order,
    })
}

/// The entries of some properties, each with the next order.
fn entries(alloc: Global, properties: &[Property<'_>]) -> Result<Vec<Entry>, Fail> {
    let mut listed = Vec::new(alloc);
    let mut order = 0u32;
    for property in properties {
        listed.push(entry(alloc, *property, order)?)?;
        order = order.wrapping_add(1);
    }
    Ok(listed)
}

/// The list of the entries of some properties.
fn list_of(alloc: Global, properties: &[Property<'_>]) -> Result<PlainDb, Fail> {
    let listed = entries(alloc, properties)?;
    if !rising(&listed) {
        return Err("the entries do not rise")?;
    }
    Ok(PlainDb::new(listed))
}

/// The trie of entries that rise.
fn trie_from(alloc: Global, listed: Vec<Entry>) -> Result<Trie, Fail> {
    if !rising(&listed) {
        return Err("the entries do not rise")?;
    }
    Ok(Trie::build(alloc, listed)?)
}

/// The trie of the entries of some properties.
fn trie_of(alloc: Global, properties: &[Property<'_>]) -> Result<Trie, Fail> {
    trie_from(alloc, entries(alloc, properties)?)
}

/// Two records, the later of which has another A for abc.
const RECORDS: [Property<'static>; 3] = [
    (b"ab*", b"A", b"1"),
    (b"ab*", b"B", b"2"),
    (b"a?c", b"A", b"3"),
];

/// Whether a list answers a modalias with some properties and no others.
fn answers(
    alloc: Global,
    list: &PlainDb,
    modalias: &[u8],
    wanted: &[(&[u8], &[u8])],
) -> Result<bool, Fail> {
    Ok(list.query(alloc, modalias)?.as_slice() == wanted)
}

/// Whether a list answers by the later entry, with the line of that one.
fn answers_by_the_later_entry(alloc: Global, list: &PlainDb) -> Result<bool, Fail> {
    let found = list.query_sources(alloc, b"abc")?;
    let later = Sourced {
        key: b"A",
        value: b"3",
        file: b"t.hwdb",
        line: 2,
    };
    let is_sourced = found.len() == 2 && found.first() == Some(&later);
    Ok(
        is_sourced
            && answers(alloc, list, b"abc", &[(b"A", b"3"), (b"B", b"2")])?
            && answers(alloc, list, b"ab", &[(b"A", b"1"), (b"B", b"2")])?
            && answers(alloc, list, b"x", &[])?,
    )
}

/// Whether entries with rising orders and with keys are told from others.
fn rising_is_told(alloc: Global) -> Result<bool, Fail> {
    let mut listed = Vec::new(alloc);
    let is_none_rising = rising(&listed);
    listed.push(entry(alloc, (b"*", b"A", b"1"), 4)?)?;
    let is_one_rising = rising(&listed);
    listed.push(entry(alloc, (b"*", b"A", b"2"), 4)?)?;
    let is_rising = rising(&listed);
    Ok(
        is_none_rising
            && is_one_rising
            && !is_rising
            && !rising(&entries(alloc, &[(b"*", b"", b"1")])?),
    )
}

/// Whether a byte comes before a star, and a star before its end.
fn labels_are_ordered(alloc: Global) -> Result<bool, Fail> {
    let byte = packed(alloc, b"\xff")?;
    let star = packed(alloc, b"*?")?;
    let alone = packed(alloc, b"*")?;
    Ok(
        compare_from(&byte, 0, &star, 0) == Ordering::Less
            && compare_from(&star, 0, &alone, 0) == Ordering::Greater
            && compare_labels(&Item::Many, &Item::One) == Ordering::Greater,
    )
}

#[test]
fn a_list_answers_by_the_later_entry(rt: HostRuntime) -> Result<(), Fail> {
    let alloc = rt.alloc();
    let list = list_of(alloc, &RECORDS)?;
    assert!(rt; answers_by_the_later_entry(alloc, &list)?);
    assert!(rt; list.into_entries().len() == 3);
    assert!(rt; rising_is_told(alloc)?);
    assert!(rt; labels_are_ordered(alloc)?);
    Ok(())
}

/// Forty times a star and `a`.
fn letters_and_stars(alloc: Global) -> Result<Vec<u8>, AllocError> {
    let mut pattern = Vec::new(alloc);
    for _ in 0..40 {
        pattern.extend_from_slice(b"*a")?;
    }
    Ok(pattern)
}

/// Two hundred times `a` and a `b`.
fn letters(alloc: Global) -> Result<Vec<u8>, AllocError> {
    let mut modalias = vec![in alloc; b'a'; 200]?;
    modalias.push(b'b')?;
    Ok(modalias)
}

/// Whether the nodes that are active are those after each of the forty stars.
fn are_after_stars(active: &[u32]) -> bool {
    for (place, node) in active.iter().enumerate() {
        if *node as usize != place.wrapping_mul(2).wrapping_add(1) {
            return false;
        }
    }
    active.len() == 40
}

/// The nodes of a trie that are active at the end of a modalias, and how many are at all of its lengths, if there are
/// as many in its index.
fn visits(alloc: Global, trie: &Trie, modalias: &[u8]) -> Result<(Vec<u32>, u128), Fail> {
    let bytes = write_index(alloc, trie)?;
    let index = Index::open(&bytes).map_err(|_fault| "no index")?;
    let (active, sum) = index.visits(alloc, modalias)?;
    let (active_in_trie, sum_in_trie) = trie.visits(alloc, modalias)?;
    if active.as_slice() != active_in_trie.as_slice() || sum != sum_in_trie {
        Err("a trie and its index differ")?;
    }
    Ok((active, sum))
}

/// Whether forty stars are walked in line with a text.
fn forty_stars_are_walked(alloc: Global) -> Result<bool, Fail> {
    let pattern = letters_and_stars(alloc)?;
    let trie = trie_of(alloc, &[(&pattern, b"K", b"V")])?;
    let (active, sum) = visits(alloc, &trie, &letters(alloc)?)?;
    Ok(trie.len() == 81 && are_after_stars(&active) && sum == 14_521)
}

/// The longest pattern: for ten bytes it has the root active at first and never again, and each of its other 16,384
/// nodes at each of the eleven lengths: 1 + 11 * 16,384 = 180,225.
fn stars(alloc: Global) -> Result<Vec<u8>, AllocError> {
    vec![in alloc; b'*'; 16_384]
}

/// Whether a database answers ten times `a` with one property.
fn answers_ten<L: Lookup>(alloc: Global, database: &L) -> Result<bool, Fail> {
    Ok(database.query(alloc, b"aaaaaaaaaa")?.len() == 1)
}

/// Whether a list answers by the longest pattern.
fn longest_is_listed(alloc: Global) -> Result<bool, Fail> {
    let pattern = stars(alloc)?;
    let list = list_of(alloc, &[(&pattern, b"K", b"V")])?;
    answers_ten(alloc, &list)
}

/// Whether a trie and its index walk along the longest pattern.
fn longest_is_walked(alloc: Global) -> Result<bool, Fail> {
    let pattern = stars(alloc)?;
    let trie = trie_of(alloc, &[(&pattern, b"K", b"V")])?;
    let (active, sum) = visits(alloc, &trie, b"aaaaaaaaaa")?;
    Ok(
        trie.len() == 16_385
            && active.len() == 16_384
            && sum == 180_225
            && answers_ten(alloc, &trie)?,
    )
}

/// The pattern of a number of four digits.
fn numbered(alloc: Global, number: u32) -> Result<Vec<u8>, AllocError> {
    let digits = number.wrapping_add(10_000).to_string(alloc)?;
    let mut pattern = Vec::from_slice(alloc, b"usb:v")?;
    pattern.extend_from_slice(digits.as_bytes().get(1..).unwrap_or(b""))?;
    Ok(pattern)
}

/// Ten thousand entries, from `usb:v0000` to `usb:v9999`.
fn ten_thousand(alloc: Global) -> Result<Vec<Entry>, Fail> {
    let mut listed = Vec::new(alloc);
    for number in 0..10_000 {
        let pattern = numbered(alloc, number)?;
        listed.push(entry(alloc, (&pattern, b"K", b"V"), number)?)?;
    }
    Ok(listed)
}

/// Whether one of ten thousand patterns is found by a step for each byte.
fn one_of_many_is_walked(alloc: Global) -> Result<bool, Fail> {
    let trie = trie_from(alloc, ten_thousand(alloc)?)?;
    let (active, sum) = visits(alloc, &trie, b"usb:v1234")?;
    Ok(trie.len() == 11_116 && active.len() == 1 && sum == 10)
}

#[test]
fn nodes_are_walked_in_line_with_the_text(rt: HostRuntime) -> Result<(), Fail> {
    let alloc = rt.alloc();
    assert!(rt; forty_stars_are_walked(alloc)?);
    assert!(rt; longest_is_listed(alloc)?);
    Ok(())
}

/// Apart from the others, as each test has a minute.
#[test]
fn the_longest_pattern_is_walked(rt: HostRuntime) -> Result<(), Fail> {
    assert!(rt; longest_is_walked(rt.alloc())?);
    Ok(())
}

/// Apart from the others, as each test has a minute.
#[test]
fn one_of_ten_thousand_patterns_is_walked(rt: HostRuntime) -> Result<(), Fail> {
    assert!(rt; one_of_many_is_walked(rt.alloc())?);
    Ok(())
}
