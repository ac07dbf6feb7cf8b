//! A walk along a tree, in time that grows with the active nodes and their children.
//!
//! A node's path is the list of labels from the root, and a node is *active* after a text if its path, as a pattern,
//! fits the text. So the active nodes are a filter over all nodes, which knows of no walk. With one byte more, the
//! active nodes are the children of the former ones that take the byte, the stars that were active, and the stars below
//! nodes that are active now. Nodes are numbered level by level, so each of the three is a rising list, and one merge
//! meets every active node once and in order. The lists are reused from step to step, so a walk takes memory only while
//! they grow.
//!
//! Building a tree is the same idea turned round: entries are sorted by pattern, a node is a range of them, and each
//! range is cut into its children level by level.
ghost use Rattle.std.specs.Prelude.{◌≡◌, ◌+◌, ◌*◌, ◌<◌, ◌≤◌, [], ◌++◌, IfOk, OnOk, length, min, take, drop, All, flat_map, slice_index};
ghost use Rattle.trie_nodes.specs.Tree.{Shape, active_after, children, count};
ghost use Rattle.trie_nodes.specs.Steps.{stars, takers};
ghost use Rattle.trie_nodes.specs.Merge.{first_or, past};

use crate::tree::Nodes;
use std::alloc::{AllocError, Global};
use std::mem;

/// The lists of a walk.
#[derive(Drop)]
struct Walk {
    /// The active nodes, rising.
    active: Vec<u32>,
    /// The children of the active nodes that take the next byte.
    takers: Vec<u32>,
    /// The stars among the active nodes.
    stars: Vec<u32>,
    /// The stars below nodes that are already known to be active after the next byte.
    starred: Vec<u32>,
    /// The nodes that are known to be active after the next byte.
    next: Vec<u32>,
}

/// Adds the children of a node that take a byte.
fn push_takers<N: Nodes>(
    nodes: &N,
    parent: u32,
    byte: u8,
    list: &mut Vec<u32>,
) -> Result<(), AllocError>
    requires shape { Shape (N.nodes nodes.now) }
    requires within { parent < length (N.nodes nodes.now) }
    ensures { OnOk result (list.new.items ≡ list.old.items ++ takers (N.nodes nodes.now) byte (children (N.nodes nodes.now) parent)) }
{
    let children = nodes.children(parent);
    for child in children.start..children.end {
        if nodes.takes(child, byte) {
            list.push(child)?;
        }
    }
    Ok(())
}

/// Adds the children of a node that are stars.
fn push_stars<N: Nodes>(nodes: &N, parent: u32, list: &mut Vec<u32>) -> Result<(), AllocError>
    requires shape { Shape (N.nodes nodes.now) }
    requires within { parent < length (N.nodes nodes.now) }
    ensures { OnOk result (list.new.items ≡ list.old.items ++ stars (N.nodes nodes.now) (children (N.nodes nodes.now) parent)) }
{
    let children = nodes.children(parent);
    for child in children.start..children.end {
        if nodes.is_star(child) {
            list.push(child)?;
        }
    }
    Ok(())
}

/// Fills a list with the children of the active nodes that take a byte.
fn all_takers<N: Nodes>(
    nodes: &N,
    active: &[u32],
    byte: u8,
    list: &mut Vec<u32>,
) -> Result<(), AllocError>
    requires shape { Shape (N.nodes nodes.now) }
    requires within { All (λ i. i < length (N.nodes nodes.now)) active.now }
    ensures { OnOk result (list.new.items ≡ flat_map (λ i. takers (N.nodes nodes.now) byte (children (N.nodes nodes.now) i)) active.now) }
{
    list.clear();
    for parent in active {
        push_takers(nodes, *parent, byte, list)?;
    }
    Ok(())
}

/// Fills a list with the stars among the active nodes.
fn all_stars<N: Nodes>(nodes: &N, active: &[u32], list: &mut Vec<u32>) -> Result<(), AllocError>
    requires { All (λ i. i < length (N.nodes nodes.now)) active.now }
    ensures { OnOk result (list.new.items ≡ stars (N.nodes nodes.now) active.now) }
{
    list.clear();
    for i in active {
        if nodes.is_star(*i) {
            list.push(*i)?;
        }
    }
    Ok(())
}

/// The first element of a list, or the end if the list is empty.
fn first_or(end: u32, list: &[u32]) -> u32
    ensures { result ≡ first_or end list.now }
{
    match list.split_first() {
        Some((first, _)) => *first,
        None => end,
    }
}

/// What is left of a rising list after a node.
fn past(node: u32, list: &[u32]) -> &[u32]
    ensures { result.now ≡ past node list.now }
{
    match list.split_first() {
        Some((first, rest)) if *first == node => rest,
        _ => list,
    }
}

/// How many of a list's first numbers a walk has passed once it has met a node.
fn passed(node: u32, list: &[u32], at: usize) -> usize
    requires { at ≤ length list.now }
    ensures within { result ≤ length list.now }
    ensures value { drop result list.now ≡ past node (drop at list.now) }
{
    if at < list.len() && list[at] == node {
        at + 1
    } else {
        at
    }
}

/// The least of the first elements of three rising lists, or the end if all are empty.
fn nearest(end: u32, first: &[u32], second: &[u32], third: &[u32]) -> u32
    ensures { result ≡ min (first_or end first.now) (min (first_or end second.now) (first_or end third.now)) }
{
    first_or(end, first).min(first_or(end, second).min(first_or(end, third)))
}

/// Fills a list with the nodes that are active after one byte more of a modalias: the takers, the
/// stars, and the stars below nodes that are in the list.
fn merge<N: Nodes>(
    nodes: &N,
    modalias: &[u8],
    at: usize,
    taking: &[u32],
    staying: &[u32],
    starred: &mut Vec<u32>,
    next: &mut Vec<u32>,
) -> Result<(), AllocError>
    requires shape { Shape (N.nodes nodes.now) }
    requires within { at < length modalias.now }
    requires taking { taking.now ≡ flat_map (λ i. takers (N.nodes nodes.now) (slice_index modalias.now at) (children (N.nodes nodes.now) i))
        (active_after (N.nodes nodes.now) (take at modalias.now)) }
    requires staying { staying.now ≡ stars (N.nodes nodes.now) (active_after (N.nodes nodes.now) (take at modalias.now)) }
    ensures { OnOk result (next.new.items ≡ active_after (N.nodes nodes.now) (take (at + 1) modalias.now)) }
{
    let mut taken = taking;
    let mut stay = staying;
    starred.clear();
    let mut starred_at = 0;
    let end = nodes.len();
    next.clear();
    loop {
        let node = nearest(end, taken, stay, &starred[starred_at..]);
        if node >= end {
            return Ok(());
        }
        next.push(node)?;
        taken = past(node, taken);
        stay = past(node, stay);
        starred_at = passed(node, starred, starred_at);
        push_stars(nodes, node, starred)?;
    }
}

/// Goes on by one byte of a modalias.
fn advance<N: Nodes>(
    nodes: &N,
    walk: &mut Walk,
    modalias: &[u8],
    at: usize,
) -> Result<(), AllocError>
    requires shape { Shape (N.nodes nodes.now) }
    requires within { at < length modalias.now }
    requires active { walk.old.active.items ≡ active_after (N.nodes nodes.now) (take at modalias.now) }
    ensures { OnOk result (walk.new.active.items ≡ active_after (N.nodes nodes.now) (take (at + 1) modalias.now)) }
{
    all_takers(nodes, &walk.active, modalias[at], &mut walk.takers)?;
    all_stars(nodes, &walk.active, &mut walk.stars)?;
    merge(
        nodes,
        modalias,
        at,
        &walk.takers,
        &walk.stars,
        &mut walk.starred,
        &mut walk.next,
    )?;
    mem::swap(&mut walk.active, &mut walk.next);
    Ok(())
}

/// The nodes that are active before the first byte.
fn at_start<N: Nodes>(alloc: Global, nodes: &N) -> Result<Vec<u32>, AllocError>
    ensures tree { Shape (N.nodes nodes.now) }
    ensures active { IfOk result (λ list. list.items ≡ active_after (N.nodes nodes.now) []) }
{
    let root = nodes.root();
    let mut list = Vec::new(alloc);
    list.push(root)?;
    push_stars(nodes, root, &mut list)?;
    let mut at = 1;
    while at < list.len() {
        let node = list[at];
        push_stars(nodes, node, &mut list)?;
        at += 1;
    }
    Ok(list)
}

/// The nodes that are active at the end of a modalias, rising, and how many are active after each length of it from
/// 0 on, summed. Fails only if there is no memory for the lists.
pub fn visits<N: Nodes>(
    alloc: Global,
    nodes: &N,
    modalias: &[u8],
) -> Result<(Vec<u32>, u128), AllocError>
    ensures nodes { IfOk result (λ r. r.0.items ≡ active_after (N.nodes nodes.now) modalias.now) }
    ensures count { IfOk result (λ r. r.1 ≡ count (N.nodes nodes.now) modalias.now) }
    ensures bound { IfOk result (λ r. r.1 ≤ length (N.nodes nodes.now) * (length modalias.now + 1)) }
{
    let active = at_start(alloc, nodes)?;
    let mut walk = Walk {
        active,
        takers: Vec::new(alloc),
        stars: Vec::new(alloc),
        starred: Vec::new(alloc),
        next: Vec::new(alloc),
    };
    let mut sum = walk.active.len() as u128;
    for at in 0..modalias.len() {
        advance(nodes, &mut walk, modalias, at)?;
        sum += walk.active.len() as u128;
    }
    let Walk { active, .. } = walk;
    Ok((active, sum))
}
