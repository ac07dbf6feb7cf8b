//! What texts, patterns and tables show only to a caller.
use indexmap::{IndexMap, IndexSet};
use std::alloc::{AllocError, Global};
use std::borrow::CowSlice;
use std::test::Fail;
use text_bytes::{Bytes, capped};
use text_core::{Choice, GlobFault, Item, PackedPattern, Pattern};
use text_tables::{CowPairs, OwnedTexts, Pairs, SortedPairs, Table, Texts};

/// The pattern of a device by its name.
const TRACKBALL: &[u8] = b"mouse:*:name:*[tT]rack[bB]all*:*";

/// A pattern without a set, which fits the same two texts.
const WITHOUT_SET: &[u8] = b"mouse:*:name:*rack?all*:*";

/// Whether a pattern lends its items, and its copy fits a text and not another one.
fn is_copied(alloc: Global, text: &[u8]) -> Result<bool, Fail> {
    let pattern = Pattern::read(alloc, text)?;
    let copy = pattern.copy(alloc)?;
    Ok(
        pattern.items().first() == Some(&Item::Byte(b'm'))
            && copy.fits(b"mouse:usb:name:My TrackBall:x")
            && !copy.fits(b"mouse:usb:name:My Mouse:x"),
    )
}

/// Whether a pattern has the same items packed, and its packed copy fits a text and not another one.
fn is_packed(alloc: Global, text: &[u8]) -> Result<bool, Fail> {
    let pattern = Pattern::read(alloc, text)?;
    let packed = PackedPattern::read(alloc, text)?;
    for at in 0..packed.len() {
        if pattern.items().get(at) != Some(&packed.item(at)) {
            return Ok(false);
        }
    }
    let copy = packed.copy(alloc)?;
    Ok(copy.fits(b"mouse:usb:name:My TrackBall:x") && !copy.fits(b"mouse:usb:name:My Mouse:x"))
}

/// Whether a pattern has this fault.
fn pattern_has_fault(alloc: Global, pattern: &[u8], fault: GlobFault) -> bool {
    match Pattern::read(alloc, pattern) {
        Err(found) => found == fault,
        Ok(_) => false,
    }
}

/// Whether a choice has this fault, read in both ways.
fn choice_has_fault(alloc: Global, choice: &[u8], fault: GlobFault) -> bool {
    match (
        Choice::read(alloc, choice),
        Choice::read_blind(alloc, choice),
    ) {
        (Err(found), Err(found_blindly)) => found == fault && found_blindly == fault,
        _ => false,
    }
}

#[test]
fn patterns_show_their_items_and_the_place_of_a_fault(rt: HostRuntime) -> Result<(), Fail> {
    let alloc = rt.alloc();
    for text in [TRACKBALL, WITHOUT_SET] {
        assert!(rt; is_copied(alloc, text)?);
        assert!(rt; is_packed(alloc, text)?);
    }
    assert!(rt; Choice::read(alloc, b"[a|b]")?.parts().len() == 2);
    assert!(rt; pattern_has_fault(alloc, b"a[b[:c]", GlobFault::Class { at: 3 }));
    assert!(rt; pattern_has_fault(alloc, b"[[.]", GlobFault::Class { at: 1 }));
    let brackets = vec![in alloc; b'['; 16385]?;
    assert!(rt; pattern_has_fault(alloc, &brackets, GlobFault::TooLong));
    assert!(rt; choice_has_fault(alloc, b"ab|[[:x]|[[=]", GlobFault::Class { at: 4 }));
    let bars = vec![in alloc; b'|'; 16385]?;
    assert!(rt; choice_has_fault(alloc, &bars, GlobFault::TooLong));
    Ok(())
}

/// Whether bytes are made from a list, and give it back.
fn bytes_are_given(alloc: Global) -> Result<bool, AllocError> {
    let bytes = Bytes::new(vec![in alloc; b'a'; 2]?);
    let is_lent = bytes.as_slice() == b"aa".as_slice();
    Ok(is_lent && bytes.into_vec().as_slice() == b"aa".as_slice())
}

/// What is there once b, a and b again are added.
fn added_texts<'a>(alloc: Global) -> Result<Texts<'a>, AllocError> {
    let mut texts = Texts::new(alloc);
    for text in [b"b".as_slice(), b"a", b"b"] {
        texts.add(text)?;
    }
    Ok(texts)
}

/// Whether texts are given as a set, and made from one.
fn texts_are_given(alloc: Global) -> Result<bool, AllocError> {
    let texts = added_texts(alloc)?;
    let count = texts.as_set().len();
    let mut set = texts.into_set();
    set.insert(b"c")?;
    Ok(count == 2 && Texts::from_set(set).as_slice() == [b"b".as_slice(), b"a", b"c"].as_slice())
}

/// What is there once b has the value 1, a has 2 and b has 3.
fn added_pairs<'a>(alloc: Global) -> Result<Pairs<'a>, AllocError> {
    let mut pairs = Pairs::new(alloc);
    for (name, value) in [
        (b"b".as_slice(), b"1".as_slice()),
        (b"a", b"2"),
        (b"b", b"3"),
    ] {
        pairs.add(name, value)?;
    }
    Ok(pairs)
}

/// Whether there is a value, and it is this one.
fn is_value(found: Option<&[u8]>, wanted: &[u8]) -> bool {
    match found {
        Some(value) => value == wanted,
        None => false,
    }
}

/// Whether names with values are given as a map, and made from one.
fn pairs_are_given(alloc: Global) -> Result<bool, AllocError> {
    let mut map = added_pairs(alloc)?.into_map();
    let is_first = map.get_index_of(b"b".as_slice()) == Some(0);
    map.insert(b"c", b"4")?;
    let pairs = Pairs::from_map(map);
    Ok(
        is_first
            && is_value(pairs.get(b"b"), b"3")
            && is_value(pairs.get(b"c"), b"4")
            && pairs.len() == 3,
    )
}

/// What is there once b has the value 1 and then 2.
fn added_values<'a>(alloc: Global) -> Result<Table<'a, u8>, AllocError> {
    let mut table = Table::new(alloc);
    for value in [1u8, 2] {
        table.add(b"b", value)?;
    }
    Ok(table)
}

/// Whether names with numbers are given as a map, and made from one.
fn values_are_given(alloc: Global) -> Result<bool, AllocError> {
    let map: IndexMap<&[u8], u8> = added_values(alloc)?.into_map();
    let table = Table::from_map(map);
    Ok(
        table.contains(b"b")
            && !table.contains(b"a")
            && table.get(b"b").copied() == Some(2)
            && table.as_map().len() == 1
            && table.len() == 1,
    )
}

/// Whether texts of their own are made from a set, and given as one.
fn owned_texts_are_given(alloc: Global) -> Result<bool, AllocError> {
    let mut set = IndexSet::new(alloc);
    for text in [b"b".as_slice(), b"a", b"b"] {
        set.insert(Vec::from_slice(alloc, text)?)?;
    }
    let mut texts = OwnedTexts::from_set(set);
    texts.add(alloc, b"c")?;
    let is_lent = texts.as_slice().len() == 3
        && texts.as_set().get_index_of(b"a".as_slice()) == Some(1);
    let set = texts.into_set();
    Ok(
        is_lent
            && set.len() == 3
            && set.get_index_of(b"b".as_slice()) == Some(0)
            && set.get_index_of(b"a".as_slice()) == Some(1)
            && set.get_index_of(b"c".as_slice()) == Some(2),
    )
}

/// Whether texts, of which some are owned, are made from a map, and given as one.
fn cow_pairs_are_given(alloc: Global) -> Result<bool, AllocError> {
    let mut map = IndexMap::new(alloc);
    for (name, value) in [(b"b".as_slice(), b"1".as_slice()), (b"a", b"2")] {
        map.insert(
            CowSlice::Borrowed(name),
            CowSlice::Owned(Vec::from_slice(alloc, value)?),
        )?;
    }
    let mut pairs = CowPairs::from_map(map);
    pairs.set(alloc, b"b", b"3")?;
    let is_lent = pairs.as_map().get_index_of(b"a".as_slice()) == Some(1);
    let map = pairs.into_map();
    Ok(
        is_lent
            && map.len() == 2
            && map.get_index_of(b"b".as_slice()) == Some(0)
            && is_value(map.get(b"b".as_slice()).map(CowSlice::as_slice), b"3")
            && is_value(map.get(b"a".as_slice()).map(CowSlice::as_slice), b"2"),
    )
}

/// Whether sorted names lend the table that they are made from, and give it back as it was.
fn sorted_pairs_are_given(alloc: Global) -> Result<bool, AllocError> {
    let mut pairs = CowPairs::new(alloc);
    for (name, value) in [(b"b".as_slice(), b"1".as_slice()), (b"a", b"2")] {
        pairs.set(alloc, name, value)?;
    }
    let sorted = SortedPairs::new(alloc, pairs)?;
    let is_lent = is_value(sorted.as_pairs().get(b"b"), b"1");
    let table = sorted.into_pairs();
    Ok(is_lent && table.as_map().get_index_of(b"b".as_slice()) == Some(0) && table.len() == 2)
}

#[test]
fn tables_are_given_and_taken(rt: HostRuntime) -> Result<(), Fail> {
    let alloc = rt.alloc();
    assert!(rt; capped(4_294_967_296) == 4_294_967_295);
    assert!(rt; bytes_are_given(alloc)?);
    assert!(rt; texts_are_given(alloc)?);
    assert!(rt; pairs_are_given(alloc)?);
    assert!(rt; values_are_given(alloc)?);
    assert!(rt; owned_texts_are_given(alloc)?);
    assert!(rt; cow_pairs_are_given(alloc)?);
    assert!(rt; sorted_pairs_are_given(alloc)?);
    Ok(())
}
