//! Indexes: what their calls return besides the properties that are found, and what their records are.
use std::alloc::{AllocError, Global};
use std::test::Fail;
use trie_build::{Header, Index, NodeRecord, Places, Span, ValueRecord, check, kinds};
use trie_nodes::Lookup;

/// The index of `a*` with ` K=V`, from line 2 of t.hwdb, as docs/format.md prints it.
const WITH_FILE: &[u8; 144] = b"devdryhw\x02\0\0\0\x03\0\0\0\x01\0\0\0\0\0\0\0\x08\0\0\0\0\0\0\0\
    \0\0\0\0\0\0\0\0\x01\0\0\0\x01\0\0\0\0\0\0\0\0\0\0\0\
    \x01a\0\0\0\0\0\0\x02\0\0\0\x01\0\0\0\0\0\0\0\0\0\0\0\
    \x03\0\0\0\0\0\0\0\x03\0\0\0\0\0\0\0\0\0\0\0\x01\0\0\0\
    \0\0\0\0\x01\0\0\0\x01\0\0\0\x01\0\0\0\0\0\0\0\x02\0\0\0\x06\0\0\0\x02\0\0\0KVt.hwdb";

/// The header of that index.
const HEADER: Header = Header {
    version: 2,
    nodes: 3,
    values: 1,
    sets: 0,
    text: 8,
    reserved: 0,
};

/// How many nodes below the root the chain has.
const LAST: u32 = 16_000;

/// Adds numbers of 32 bits, the least significant byte first.
fn push_numbers(bytes: &mut Vec<u8>, numbers: &[u32]) -> Result<(), AllocError> {
    for number in numbers {
        bytes.extend_from_slice(&number.to_le_bytes())?;
    }
    Ok(())
}

/// The index, in version 1, of nodes one below another, each except the root after `a` and with `K=V`.
fn chain(alloc: Global) -> Result<Vec<u8>, AllocError> {
    let mut bytes = Vec::from_slice(alloc, b"devdryhw")?;
    push_numbers(&mut bytes, &[1, LAST + 1, LAST, 0, 2, 0])?;
    push_numbers(&mut bytes, &[0, 0, 1, 1, 0, 0])?;
    let byte = u32::from_le_bytes([1, b'a', 0, 0]);
    for i in 1..LAST {
        push_numbers(&mut bytes, &[byte, 0, i + 1, 1, i - 1, 1])?;
    }
    push_numbers(&mut bytes, &[byte, 0, LAST + 1, 0, LAST - 1, 1])?;
    for _value in 0..LAST {
        push_numbers(&mut bytes, &[0, 1, 1, 1, 0])?;
    }
    bytes.extend_from_slice(b"KV")?;
    Ok(bytes)
}

/// A thousand queries, which have to end within the minute that a test has: comparing pattern by pattern would take
/// 128,008,000,000 steps for them.
#[test]
fn a_chain_is_walked_a_thousand_times(rt: HostRuntime) -> Result<(), Fail> {
    let alloc = rt.alloc();
    let bytes = chain(alloc)?;
    assert_eq!(rt; bytes.len(), 704_058);
    let modalias = vec![in alloc; b'a'; 16_000]?;
    let Ok(index) = Index::open(&bytes) else {
        return Err("no index")?;
    };
    let (active, sum) = index.visits(alloc, &modalias)?;
    assert!(rt; active.as_slice() == [16_000].as_slice());
    assert_eq!(rt; sum, 16_001);
    for _time in 0..1000 {
        let found = index.query(alloc, &modalias)?;
        assert!(rt; found.as_slice() == [(b"K".as_slice(), b"V".as_slice())].as_slice());
    }
    Ok(())
}

/// The file of the index with the byte at a place set to 0.
fn with_zero(alloc: Global, at: usize) -> Result<Vec<u8>, AllocError> {
    let mut bytes = Vec::from_slice(alloc, WITH_FILE)?;
    if let Some(byte) = bytes.get_mut(at) {
        *byte = 0;
    }
    Ok(bytes)
}

/// What the program can't show: how many nodes were active, a modalias with a NUL byte, and the line of a property
/// whose file has no name.
fn index_answers_its_caller(alloc: Global) -> Result<bool, Fail> {
    let index = Index::open(WITH_FILE).map_err(|_fault| "no index")?;
    // the root alone, the byte and the star after a, the star after b and after c
    let (active, sum) = index.visits(alloc, b"abc")?;
    let after_nul = with_zero(alloc, 57)?;
    let index = Index::open(&after_nul).map_err(|_fault| "no index")?;
    let is_found = index.query(alloc, b"\0bc")?.len() == 1;
    let nameless = with_zero(alloc, 128)?;
    let index = Index::open(&nameless).map_err(|_fault| "no index")?;
    let found = index.query_sources(alloc, b"abc")?;
    Ok(
        active.last() == Some(&2)
            && sum == 5
            && is_found
            && found.len() == 1
            && found[0].file.is_empty()
            && found[0].line == 2,
    )
}

/// Whether a header is read, says where the parts begin, and is written as it was.
fn header_is_read_and_written(alloc: Global) -> Result<bool, AllocError> {
    let header = Header::read(WITH_FILE);
    let places = Places {
        values: 104,
        sets: 136,
        text: 136,
        end: 144,
    };
    let mut out = Vec::new(alloc);
    header.write(&mut out)?;
    let first = Header {
        version: 1,
        ..HEADER
    };
    Ok(
        header == HEADER
            && header.places() == places
            && out.as_slice() == &WITH_FILE.as_slice()[..32]
            && first.values_len(2) == 40,
    )
}

/// Whether a node and a value are read, in both versions, and written as they were.
fn records_are_read_and_written(alloc: Global) -> Result<bool, AllocError> {
    let star = NodeRecord::read(WITH_FILE, 80);
    let value = ValueRecord::read(2, WITH_FILE, 104);
    let first = ValueRecord::read(1, WITH_FILE, 104);
    let mut out = Vec::new(alloc);
    star.write(&mut out)?;
    value.write(&mut out)?;
    Ok(
        (star.kind == kinds::MANY && star.first == 3 && star.values == 1)
            && (value.file == Span { place: 2, len: 6 } && value.line == 2)
            && (first.file == Span { place: 0, len: 0 } && first.line == 0)
            && out.as_slice() == &WITH_FILE.as_slice()[80..136],
    )
}

/// Whether the records of an index are found by their numbers.
fn records_are_found() -> Result<bool, Fail> {
    let records = check(WITH_FILE).map_err(|_fault| "no index")?;
    let header = records.header();
    let name = Span { place: 2, len: 6 };
    Ok(
        (header.nodes == 3 && header.values == 1 && header.text == 8)
            && records.text_of(name) == b"t.hwdb".as_slice()
            && records.node(1).byte == b'a'
            && records.value(0).line == 2,
    )
}

#[test]
fn an_index_shows_its_parts(rt: HostRuntime) -> Result<(), Fail> {
    let alloc = rt.alloc();
    assert!(rt; index_answers_its_caller(alloc)?);
    assert!(rt; header_is_read_and_written(alloc)?);
    assert!(rt; records_are_read_and_written(alloc)?);
    assert!(rt; records_are_found()?);
    Ok(())
}
