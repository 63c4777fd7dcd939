//! A balanced tree of runs in order. Each run is read, inserted and removed in logarithmic time. A node has several runs, so
//! that the way to a run has few nodes.
ghost use Rattle.std.specs.Prelude.{◌≡◌, ◌+◌, ◌-◌, ◌<◌, ◌≤◌, ◌^◌, [], ◌∷◌, ◌++◌, length, IfOk, OnOk, OnErr};
ghost use Rattle.std.proofs.Math.ListN.{set};
ghost use Rattle.byte_map.specs.Image.{addresses, run_at, end_of, AreMaximal};
ghost use Rattle.byte_map.specs.Tree.{runs_of, put_in, taken_out, IsCut};

use crate::chunk::{beginning_in, ending_in};
use crate::run_buffer::RunBuffer;
use std::alloc::AllocError;
use std::marker::Model;
use std::mem;

/// A node has fewer runs than this, unless memory runs out when it has to be split.
pub const LIMIT: usize = 32;

/// The runs before those of a node, or after them.
pub type Side = Option<Box<Node>>;

/// Runs, those before them, those after them, and how many runs and nodes there are. Neither side has more than three
/// times as many nodes as the other, where the two have more than one.
#[derive(Drop)]
pub struct Node {
    left: Side,
    chunk: Vec<RunBuffer>,
    count: usize,
    nodes: usize,
    right: Side,
}

impl Model for Node {
    ghost use Rattle.std.specs.Prelude.{◌≡◌, ◌+◌, ◌++◌, length};
    ghost use Rattle.byte_map.specs.Tree.{Tree, runs_of, nodes_in};

    ghost Value = { Tree };

    ghost view = { λ n. record { runs = runs_of n.left ++ (n.chunk.items ++ runs_of n.right); nodes = nodes_in n.left + (nodes_in n.right + 1) } };

    ghost invariant = { λ n. n.count ≡ length (runs_of n.left) + (length n.chunk.items + length (runs_of n.right)) };

    ghost size = { λ t. t.nodes };

    ghost use Rattle.std.proofs.Common.{arith};

    ghost size_decreases = { λ n h. Prim.grind (arith) };
}

/// A node with empty sides.
fn leaf(chunk: Vec<RunBuffer>) -> Node
    ensures { result.runs ≡ chunk.items }
{
    let count = chunk.len();
    Node {
        left: None,
        chunk,
        count,
        nodes: 1,
        right: None,
    }
}

/// Moves the runs from an index on into a new node.
fn split_back(chunk: &mut Vec<RunBuffer>, at: usize) -> Result<Box<Node>, AllocError>
    requires { at ≤ length chunk.old.items }
    ensures ok { IfOk result (λ node. chunk.old.items ≡ chunk.new.items ++ node.value.runs) }
    ensures err { OnErr result (chunk.new.items ≡ chunk.old.items) }
{
    let alloc = *chunk.allocator();
    let mut node = Box::new(alloc, leaf(Vec::new(alloc)))?;
    *node = leaf(chunk.split_off(at)?);
    Ok(node)
}

/// Moves the runs before an index into a new node.
pub fn split_front(chunk: &mut Vec<RunBuffer>, at: usize) -> Result<Box<Node>, AllocError>
    requires { at ≤ length chunk.old.items }
    ensures ok { IfOk result (λ node. chunk.old.items ≡ node.value.runs ++ chunk.new.items) }
    ensures err { OnErr result (chunk.new.items ≡ chunk.old.items) }
{
    let alloc = *chunk.allocator();
    let mut node = Box::new(alloc, leaf(Vec::new(alloc)))?;
    let back = chunk.split_off(at)?;
    *node = leaf(mem::replace(chunk, back));
    Ok(node)
}

/// How many runs a side has.
pub fn count_of(side: &Side) -> usize
    ensures { result ≡ length (runs_of side.now) }
{
    match side {
        None => 0,
        Some(node) => node.count,
    }
}

/// How many nodes a side has.
fn nodes_of(side: &Side) -> usize {
    match side {
        None => 0,
        Some(node) => node.nodes,
    }
}

/// How many nodes a node with these two sides has, itself included.
fn nodes_between(left: &Side, right: &Side) -> usize {
    nodes_of(left)
        .saturating_add(nodes_of(right))
        .saturating_add(1)
}

/// The run of a side at an index.
#[tactic(auto, using(crate::proofs::Sides::sides))]
pub fn get(side: &Side, index: usize) -> &RunBuffer
    requires { index < length (runs_of side.now) }
    ensures { result.now ≡ run_at (runs_of side.now) index }
{
    match side {
        None => unreachable!(),
        Some(node) => {
            let Node {
                left,
                chunk,
                right,
                ..
            } = &**node;
            let before = count_of(left);
            if index < before {
                get(left, index)
            } else if index - before < chunk.len() {
                &chunk[index - before]
            } else {
                get(right, index - before - chunk.len())
            }
        }
    }
}

/// How many runs of a side end below an address.
#[tactic(auto, using(crate::proofs::Cuts::cuts))]
pub fn ending_below(side: &Side, address: u64) -> usize
    requires { AreMaximal 0 addresses (runs_of side.now) }
    ensures { IsCut (λ r. end_of r) (runs_of side.now) address result }
{
    match side {
        None => 0,
        Some(node) => {
            let Node {
                left,
                chunk,
                count,
                right,
                ..
            } = &**node;
            let count = *count;
            if chunk.is_empty() {
                return ending_below(left, address) + ending_below(right, address);
            }
            if chunk[chunk.len() - 1].end() < address {
                count - count_of(right) + ending_below(right, address)
            } else if address <= chunk[0].end() {
                ending_below(left, address)
            } else {
                count - count_of(right) - chunk.len() + ending_in(chunk, address)
            }
        }
    }
}

/// How many runs of a side begin below an address.
#[tactic(auto, using(crate::proofs::Cuts::cuts))]
pub fn beginning_below(side: &Side, address: u64) -> usize
    requires { AreMaximal 0 addresses (runs_of side.now) }
    ensures { IsCut (λ r. r.at) (runs_of side.now) address result }
{
    match side {
        None => 0,
        Some(node) => {
            let Node {
                left,
                chunk,
                count,
                right,
                ..
            } = &**node;
            let count = *count;
            if chunk.is_empty() {
                return beginning_below(left, address) + beginning_below(right, address);
            }
            if u64::from(chunk[chunk.len() - 1].at()) < address {
                count - count_of(right) + beginning_below(right, address)
            } else if address <= u64::from(chunk[0].at()) {
                beginning_below(left, address)
            } else {
                count - count_of(right) - chunk.len() + beginning_in(chunk, address)
            }
        }
    }
}

/// Makes the top node's left child the top node.
#[tactic(auto, using(crate::proofs::Sides::sides))]
fn raise_left(mut top: Box<Node>) -> Box<Node>
    ensures { result.value.runs ≡ top.value.runs }
{
    let lowered = &mut *top;
    let Some(mut raised) = lowered.left.take() else {
        return top;
    };
    let node = &mut *raised;
    let count = lowered.count;
    let nodes = lowered.nodes;
    lowered.left = node.right.take();
    lowered.count = count_of(&lowered.left) + (lowered.chunk.len() + count_of(&lowered.right));
    lowered.nodes = nodes_between(&lowered.left, &lowered.right);
    node.count = count;
    node.nodes = nodes;
    node.right = Some(top);
    raised
}

/// Makes the top node's right child the top node.
#[tactic(auto, using(crate::proofs::Sides::sides))]
fn raise_right(mut top: Box<Node>) -> Box<Node>
    ensures { result.value.runs ≡ top.value.runs }
{
    let lowered = &mut *top;
    let Some(mut raised) = lowered.right.take() else {
        return top;
    };
    let node = &mut *raised;
    let count = lowered.count;
    let nodes = lowered.nodes;
    lowered.right = node.left.take();
    lowered.count = count_of(&lowered.left) + (lowered.chunk.len() + count_of(&lowered.right));
    lowered.nodes = nodes_between(&lowered.left, &lowered.right);
    node.count = count;
    node.nodes = nodes;
    node.left = Some(top);
    raised
}

/// Makes the left side of a node the heavier one, if the right one has twice as many nodes.
fn lean_left(top: Box<Node>) -> Box<Node>
    ensures { result.value.runs ≡ top.value.runs }
{
    if nodes_of(&top.right) / 2 >= nodes_of(&top.left) {
        raise_right(top)
    } else {
        top
    }
}

/// Makes the right side of a node the heavier one, if the left one has twice as many nodes.
fn lean_right(top: Box<Node>) -> Box<Node>
    ensures { result.value.runs ≡ top.value.runs }
{
    if nodes_of(&top.left) / 2 >= nodes_of(&top.right) {
        raise_left(top)
    } else {
        top
    }
}

/// Balances a node after a node was inserted at one of its sides, or removed there.
#[tactic(auto, using(crate::proofs::Sides::sides))]
fn balance(mut top: Box<Node>) -> Box<Node>
    ensures { result.value.runs ≡ top.value.runs }
{
    let node = &mut *top;
    let left = nodes_of(&node.left);
    let right = nodes_of(&node.right);
    node.nodes = nodes_between(&node.left, &node.right);
    if node.nodes <= 2 {
        return top;
    }
    if left > right.saturating_mul(3) {
        if let Some(side) = node.left.take() {
            node.left = Some(lean_left(side));
        }
        return raise_left(top);
    }
    if right > left.saturating_mul(3) {
        if let Some(side) = node.right.take() {
            node.right = Some(lean_right(side));
        }
        return raise_right(top);
    }
    top
}

/// Balances a side if a node was inserted.
fn settle(side: &mut Side, added: bool)
    ensures { runs_of side.new ≡ runs_of side.old }
{
    if !added {
        return;
    }
    if let Some(top) = side.take() {
        *side = Some(balance(top));
    }
}

/// Inserts a node before all runs of a side.
#[tactic(auto, using(crate::proofs::Sides::sides))]
fn put_first(side: Side, leaf: Box<Node>) -> Box<Node>
    requires { length leaf.value.runs + length (runs_of side) < 2 ^ 64 }
    ensures { result.value.runs ≡ leaf.value.runs ++ runs_of side }
{
    let Some(mut top) = side else {
        return leaf;
    };
    let node = &mut *top;
    node.count += leaf.count;
    node.left = Some(put_first(node.left.take(), leaf));
    balance(top)
}

/// Inserts a node after all runs of a side.
#[tactic(auto, using(crate::proofs::Sides::sides))]
pub fn put_last(side: Side, leaf: Box<Node>) -> Box<Node>
    requires { length (runs_of side) + length leaf.value.runs < 2 ^ 64 }
    ensures { result.value.runs ≡ runs_of side ++ leaf.value.runs }
{
    let Some(mut top) = side else {
        return leaf;
    };
    let node = &mut *top;
    node.count += leaf.count;
    node.right = Some(put_last(node.right.take(), leaf));
    balance(top)
}

/// Inserts a run among those of a node. If they get too many, the later ones are answered as a new node, the next one.
#[tactic(auto, using(crate::proofs::Sides::sides))]
fn put_in_chunk(
    chunk: &mut Vec<RunBuffer>,
    place: usize,
    run: RunBuffer,
) -> Result<Side, AllocError>
    requires { place ≤ length chunk.old.items }
    ensures ok { IfOk result (λ rest. put_in chunk.old.items place (run ∷ []) ≡ chunk.new.items ++ runs_of rest) }
    ensures count { IfOk result (λ rest. length chunk.old.items + 1 ≡ length chunk.new.items + length (runs_of rest)) }
    ensures err { OnErr result (chunk.new.items ≡ chunk.old.items) }
{
    chunk.insert(place, run)?;
    if chunk.len() < LIMIT {
        return Ok(None);
    }
    match split_back(chunk, chunk.len() / 2) {
        Ok(rest) => Ok(Some(rest)),
        Err(_) => Ok(None),
    }
}

/// One side followed by another.
fn put_before(rest: Side, side: Side) -> Side
    requires { length (runs_of rest) + length (runs_of side) < 2 ^ 64 }
    ensures { runs_of result ≡ runs_of rest ++ runs_of side }
{
    match rest {
        None => side,
        Some(leaf) => Some(put_first(side, leaf)),
    }
}

/// Inserts a run of a side at an index. Answers whether a node was added.
#[tactic(auto, using(crate::proofs::Sides::sides))]
pub fn insert(side: &mut Side, index: usize, run: RunBuffer) -> Result<bool, AllocError>
    requires within { index < length (runs_of side.old) }
    requires few { length (runs_of side.old) + 1 < 2 ^ 64 }
    ensures ok { OnOk result (runs_of side.new ≡ put_in (runs_of side.old) index (run ∷ [])) }
    ensures err { OnErr result (runs_of side.new ≡ runs_of side.old) }
{
    let Some(top) = side else { unreachable!() };
    let node = &mut **top;
    let before = count_of(&node.left);
    if index < before {
        let added = insert(&mut node.left, index, run)?;
        node.count += 1;
        settle(side, added);
        return Ok(added);
    }
    let place = index - before;
    let len = node.chunk.len();
    if len <= place {
        let added = insert(&mut node.right, place - len, run)?;
        node.count += 1;
        settle(side, added);
        return Ok(added);
    }
    let rest = put_in_chunk(&mut node.chunk, place, run)?;
    let added = rest.is_some();
    node.right = put_before(rest, node.right.take());
    node.count += 1;
    settle(side, added);
    Ok(added)
}

/// Removes the first node: answers its runs, and the rest of the side.
#[tactic(auto, using(crate::proofs::Sides::sides))]
fn take_first(mut top: Box<Node>) -> (Vec<RunBuffer>, Side)
    ensures { top.value.runs ≡ result.0.items ++ runs_of result.1 }
{
    let node = &mut *top;
    let Some(side) = node.left.take() else {
        let alloc = *node.chunk.allocator();
        let chunk = mem::replace(&mut node.chunk, Vec::new(alloc));
        node.count = 0;
        return (chunk, node.right.take());
    };
    let (first, others) = take_first(side);
    node.left = others;
    node.count -= first.len();
    (first, Some(balance(top)))
}

/// Gives a node without runs of its own those of the next node.
#[tactic(auto, using(crate::proofs::Sides::sides))]
fn refill(mut top: Box<Node>) -> Side
    ensures { runs_of result ≡ top.value.runs }
{
    let node = &mut *top;
    if !node.chunk.is_empty() {
        return Some(top);
    }
    let Some(side) = node.right.take() else {
        node.count = 0;
        return node.left.take();
    };
    let (chunk, others) = take_first(side);
    node.chunk = chunk;
    node.right = others;
    Some(balance(top))
}

/// Removes the run of a side at an index.
#[tactic(auto, using(crate::proofs::Sides::sides))]
pub fn remove(side: Side, index: usize) -> Side
    requires { index < length (runs_of side) }
    ensures { runs_of result ≡ taken_out (runs_of side) index }
{
    let Some(mut top) = side else { unreachable!() };
    let node = &mut *top;
    let before = count_of(&node.left);
    if index < before {
        node.left = remove(node.left.take(), index);
        node.count -= 1;
        return Some(balance(top));
    }
    let place = index - before;
    let len = node.chunk.len();
    if len <= place {
        node.right = remove(node.right.take(), place - len);
        node.count -= 1;
        return Some(balance(top));
    }
    let _run = node.chunk.remove(place);
    node.count -= 1;
    refill(top)
}

/// Appends `middle` and then `end` to a run of a side.
#[tactic(auto, using(crate::proofs::Sides::resets))]
pub fn append(side: &mut Side, index: usize, middle: &[u8], end: &[u8]) -> Result<(), AllocError>
    requires within { index < length (runs_of side.old) }
    requires fits { end_of (run_at (runs_of side.old) index) + (length middle.now + length end.now) ≤ addresses }
    ensures ok { let run = run_at (runs_of side.old) index in OnOk result
        (runs_of side.new ≡ set (runs_of side.old) index (record { at = run.at; bytes = run.bytes ++ (middle.now ++ end.now) })) }
    ensures err { OnErr result (runs_of side.new ≡ runs_of side.old) }
{
    let Some(top) = side else { unreachable!() };
    let node = &mut **top;
    let before = count_of(&node.left);
    if index < before {
        return append(&mut node.left, index, middle, end);
    }
    let place = index - before;
    let len = node.chunk.len();
    if len <= place {
        return append(&mut node.right, place - len, middle, end);
    }
    node.chunk[place].append(middle, end)
}

/// Puts `front` and then `middle` before a run of a side.
#[tactic(auto, using(crate::proofs::Sides::resets))]
pub fn prepend(side: &mut Side, index: usize, front: &[u8], middle: &[u8]) -> Result<(), AllocError>
    requires within { index < length (runs_of side.old) }
    requires fits { length front.now + length middle.now ≤ (run_at (runs_of side.old) index).at }
    ensures ok { let run = run_at (runs_of side.old) index in OnOk result
        (runs_of side.new ≡ set (runs_of side.old) index (record {
          at = run.at - (length front.now + length middle.now);
          bytes = front.now ++ (middle.now ++ run.bytes);
        })) }
    ensures err { OnErr result (runs_of side.new ≡ runs_of side.old) }
{
    let Some(top) = side else { unreachable!() };
    let node = &mut **top;
    let before = count_of(&node.left);
    if index < before {
        return prepend(&mut node.left, index, front, middle);
    }
    let place = index - before;
    let len = node.chunk.len();
    if len <= place {
        return prepend(&mut node.right, place - len, front, middle);
    }
    node.chunk[place].prepend(front, middle)
}

/// Replaces the run of a side at an index.
#[tactic(auto, using(crate::proofs::Sides::resets))]
pub fn replace(side: &mut Side, index: usize, run: RunBuffer)
    requires { index < length (runs_of side.old) }
    ensures { runs_of side.new ≡ set (runs_of side.old) index run }
{
    let Some(top) = side else { unreachable!() };
    let node = &mut **top;
    let before = count_of(&node.left);
    if index < before {
        return replace(&mut node.left, index, run);
    }
    let place = index - before;
    let len = node.chunk.len();
    if len <= place {
        return replace(&mut node.right, place - len, run);
    }
    node.chunk[place] = run;
}
