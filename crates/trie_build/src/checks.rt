//! The checks, each over the whole file and in time that grows with it.
ghost use Rattle.std.specs.Prelude.{◌≡◌, ◌+◌, ◌<◌, ◌≤◌, IsTrue, MatchResult, ◌↔◌};
ghost use Rattle.trie_build.specs.Header.{header_of};
ghost use Rattle.trie_build.specs.Records.{node};
ghost use Rattle.trie_build.specs.Accepted.{Accepted, FailsFirst, HasShape, HasSize, HasTexts, Holds, IsInPlace, IsLabelled, IsWithin, OrdersRise};
ghost use Rattle.trie_build.specs.declared.index_fault.IndexFault.TheVariants.{Label, Text, Order};

use crate::checked_records::Records;
use crate::header::Header;
use crate::index_fault::IndexFault;
use crate::kinds::{AMONG, BYTE, ROOT};
use crate::records::{NodeRecord, Span, ValueRecord};

/// Whether a node has its children and its values after those of the nodes before it.
fn is_in_place(node: &NodeRecord, i: u32, children: usize, values: usize) -> bool
    ensures { IsTrue result ↔ IsInPlace i children values node.now }
{
    let first = node.first as usize;
    first > 0 && first - 1 == children && node.first > i && node.first_value as usize == values
}

/// Whether children and values follow one another, node by node.
fn has_shape(records: &Records) -> bool
    ensures { IsTrue result ↔ HasShape records.now }
{
    let header = records.header();
    let mut children = 0;
    let mut values = 0;
    for i in 0..header.nodes {
        let node = records.node(i);
        if !is_in_place(&node, i, children, values) {
            return false;
        }
        children += node.count as usize;
        values += node.values as usize;
    }
    1 + children == header.nodes as usize && values == header.values as usize
}

/// Whether a node's label is one that its number may have. Most are a byte, which is asked first.
fn is_labelled(node: &NodeRecord, i: u32, sets: u32) -> bool
    ensures { IsTrue result ↔ IsLabelled sets i node.now }
{
    if node.kind == BYTE {
        return i > 0 && node.first_zero == 0 && node.second_zero == 0 && node.set == 0;
    }
    (node.kind == ROOT) == (i == 0)
        && node.kind <= AMONG
        && node.byte == 0
        && node.first_zero == 0
        && node.second_zero == 0
        && if node.kind == AMONG {
            node.set < sets
        } else {
            node.set == 0
        }
}

/// Whether all nodes are labelled.
fn has_labels(records: &Records) -> bool
    ensures { IsTrue result ↔ Holds Label records.now }
{
    let header = records.header();
    for i in 0..header.nodes {
        if !is_labelled(&records.node(i), i, header.sets) {
            return false;
        }
    }
    true
}

/// Whether a part lies within a text of some length.
fn is_within(span: Span, len: u32) -> bool
    ensures { IsTrue result ↔ IsWithin len span }
{
    span.place as usize + span.len as usize <= len as usize
}

/// Whether the texts of a value lie within the text, and its key is not empty.
fn has_own_texts(value: &ValueRecord, len: u32) -> bool
    ensures { IsTrue result ↔ HasTexts len value.now }
{
    value.key.len > 0
        && is_within(value.key, len)
        && is_within(value.value, len)
        && is_within(value.file, len)
}

/// Whether the texts of all values lie within the text.
fn has_texts(records: &Records) -> bool
    ensures { IsTrue result ↔ Holds Text records.now }
{
    let header = records.header();
    for j in 0..header.values {
        if !has_own_texts(&records.value(j), header.text) {
            return false;
        }
    }
    true
}

/// Whether the orders of a node's values rise.
fn orders_rise(records: &Records, node: &NodeRecord) -> bool
    requires size { HasSize records.now }
    requires within { node.now.first_value + node.now.values ≤ (header_of records.now).values }
    ensures { IsTrue result ↔ OrdersRise records.now node.now }
{
    for j in 1..node.values {
        let at = node.first_value + j;
        if records.value(at - 1).order >= records.value(at).order {
            return false;
        }
    }
    true
}

/// Whether the orders of each node's values rise.
fn has_orders(records: &Records) -> bool
    requires size { HasSize records.now }
    requires shape { HasShape records.now }
    ensures { IsTrue result ↔ Holds Order records.now }
{
    for i in 0..records.header().nodes {
        if !orders_rise(records, &records.node(i)) {
            return false;
        }
    }
    true
}

/// Whether the orders of a node's values rise, and these are among all values.
fn has_rising(records: &Records, header: &Header, node: &NodeRecord) -> bool
    requires size { HasSize records.now }
    requires header { header.now ≡ header_of records.now }
    ensures { IsTrue result → OrdersRise records.now node.now }
{
    node.first_value as usize + node.values as usize <= header.values as usize
        && orders_rise(records, node)
}

/// Whether a node passes the checks of shape, labels and orders, after nodes with so many children and values.
fn node_passes(records: &Records, header: &Header, i: u32, children: usize, values: usize) -> bool
    requires size { HasSize records.now }
    requires header { header.now ≡ header_of records.now }
    requires within { i < header.now.nodes }
    ensures place { IsTrue result → IsInPlace i children values (node records.now i) }
    ensures label { IsTrue result → IsLabelled header.now.sets i (node records.now i) }
    ensures orders { IsTrue result → OrdersRise records.now (node records.now i) }
{
    let node = records.node(i);
    is_in_place(&node, i, children, values)
        && is_labelled(&node, i, header.sets)
        && has_rising(records, header, &node)
}

/// Whether all nodes pass the checks of shape, labels and orders. Each node is read once.
fn nodes_pass(records: &Records) -> bool
    ensures shape { IsTrue result → HasShape records.now }
    ensures labels { IsTrue result → Holds Label records.now }
    ensures orders { IsTrue result → Holds Order records.now }
{
    let header = records.header();
    let mut children = 0;
    let mut values = 0;
    for i in 0..header.nodes {
        if !node_passes(records, &header, i, children, values) {
            return false;
        }
        let node = records.node(i);
        children += node.count as usize;
        values += node.values as usize;
    }
    1 + children == header.nodes as usize && values == header.values as usize
}

/// Checks a file: its records if it is an index, else the first check that it fails. It allocates nothing. An index is
/// gone through once; any other file is gone through again, once for each check, to say which it fails first.
pub fn check(bytes: &[u8]) -> Result<Records<'_>, IndexFault>
    ensures { MatchResult result (λ records. (records ≡ bytes.now) × Accepted bytes.now) (λ fault. FailsFirst bytes.now fault) }
{
    let records = Records::of(bytes)?;
    if nodes_pass(&records) && has_texts(&records) {
        return Ok(records);
    }
    if !has_shape(&records) {
        return Err(IndexFault::Shape);
    }
    if !has_labels(&records) {
        return Err(IndexFault::Label);
    }
    if !has_texts(&records) {
        return Err(IndexFault::Text);
    }
    if !has_orders(&records) {
        return Err(IndexFault::Order);
    }
    Ok(records)
}
