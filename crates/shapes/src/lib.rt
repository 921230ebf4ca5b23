// The nodes that the steps 4 to 9 make, and what those steps ask of the nodes that stand: each node by value, no array of the state.
// On nodes that are not right every function still ends within bounds.
#![tactic(auto)]

ghost use Rattle.std.specs.Prelude.{◌≡◌, ◌≤◌, get_or, length};
ghost use Rattle.counting.specs.Nodes.{coded};
ghost use Rattle.shapes.specs.Ends.{over_root};
ghost use Rattle.shapes.specs.Shapes.{
  replace_buffers,
  replace_children,
  with_buffer,
  with_child,
  split_parent,
  left_of,
  right_of,
  flush_parent,
  flush_child,
  commit_node,
};
ghost use Rattle.shapes.specs.Questions.{
  split_share_fits,
  gc_fits,
  part_fits,
  part_is,
  room_for_buffer,
  room_for_child,
  flush_room,
};

use counting::Node;
use units::{BranchRoot, NodeUnit};

// ---- lists of a node

// From `at` on, `gone` buffers go and `come` comes.
#[tactic(auto, unfolding(crate::specs::Shapes::replace_buffers))]
fn replace_buffers(n: Node, at: u8, gone: u8, come: &[u8]) -> Node
    ensures { result ≡ replace_buffers n at gone come.now }
{
    Node {
        buffer_number: eights::number_after(n.buffer_number, at, gone, come.len()),
        buffers: eights::replace(n.buffers, at, gone, come),
        ..n
    }
}

// The same of the children with their offsets, one for each.
#[tactic(auto, unfolding(crate::specs::Shapes::replace_children))]
fn replace_children(n: Node, at: u8, gone: u8, children: &[u8], offsets: &[u8]) -> Node
    ensures { result ≡ replace_children n at gone children.now offsets.now }
{
    Node {
        child_number: eights::number_after(n.child_number, at, gone, children.len()),
        children: eights::replace(n.children, at, gone, children),
        offsets: eights::replace(n.offsets, at, gone, offsets),
        ..n
    }
}

// The offset of the child c; 0 where there is none.
pub fn offset_of(n: Node, c: u8) -> u8
    ensures { result ≡ get_or n.offsets c 0 }
{
    eights::place(n.offsets, usize::from(c))
}

// ---- nodes that come

// A memtable flush's root: the buffer comes last.
pub fn with_buffer(n: Node, b: BranchRoot) -> Node
    ensures { result ≡ with_buffer n b.0 }
{
    replace_buffers(n, n.buffer_number, 0, &[b.0])
}

// A grow's root: over the old root, or a bare leaf where there is none.
pub fn over(r: NodeUnit) -> Node
    ensures { result ≡ coded (over_root r.0) }
{
    if r.0 == 0 {
        return Node::default();
    }
    replace_children(Node::default(), 0, 0, &[r.0], &[0])
}

// The child at place i is u, and keeps its offset: the rules' word for a copy on the path. The steps copy by `path::with_child`, which
// promises less; nothing calls this one today, and it stays, as a public promise.
pub fn with_child(n: Node, i: u8, u: NodeUnit) -> Node
    ensures { result ≡ with_child n i u.0 }
{
    let offset = offset_of(n, i);
    replace_children(n, i, 1, &[u.0], &[offset])
}

// A split's target: left and right in the place of the child c, each with its offset.
pub fn split_parent(n: Node, c: u8, l: NodeUnit, r: NodeUnit) -> Node
    ensures { result ≡ split_parent n c l.0 r.0 }
{
    let offset = offset_of(n, c);
    replace_children(n, c, 1, &[l.0, r.0], &[offset, offset])
}

// The first a children of the child that is split.
pub fn left_of(m: Node, a: u8) -> Node
    ensures { result ≡ left_of m a }
{
    replace_children(m, a, m.child_number, &[], &[])
}

// The others.
pub fn right_of(m: Node, a: u8) -> Node
    ensures { result ≡ right_of m a }
{
    replace_children(m, 0, a, &[], &[])
}

// A flush's target: the child c is g and has all buffers; then the first gc buffers go.
#[tactic(auto, unfolding(crate::specs::Shapes::flush_parent))]
pub fn flush_parent(n: Node, c: u8, gc: u8, g: NodeUnit) -> Node
    ensures { result ≡ flush_parent n c gc g.0 }
{
    let flushed = replace_children(n, c, 1, &[g.0], &[n.buffer_number]);
    Node {
        offsets: eights::lower(flushed.offsets, gc),
        ..replace_buffers(flushed, 0, gc, &[])
    }
}

// A flush's child: it gains the parent's buffers from its offset on.
pub fn flush_child(n: Node, m: Node, c: u8) -> Node
    ensures { result ≡ flush_child n m c }
{
    let offset = offset_of(n, c);
    let gained = eights::replace(n.buffers, 0, offset, &[]);
    let number = n.buffer_number.saturating_sub(offset);
    replace_buffers(m, m.buffer_number, 0, counting::part(&gained, 0, number))
}

// A commit's target: b in the place of the buffers from `start` up to `end`.
#[tactic(auto, unfolding(crate::specs::Shapes::commit_node))]
pub fn commit_node(n: Node, start: u8, end: u8, b: BranchRoot) -> Node
    ensures { result ≡ commit_node n start end b.0 }
{
    let gone = end.saturating_sub(start);
    Node {
        offsets: eights::move_offsets(n.offsets, start, end),
        ..replace_buffers(n, start, gone, &[b.0])
    }
}

// ---- questions: 7, the numbers of a step

// A leaf splits at 0, another node within its children.
#[tactic(auto, unfolding(crate::specs::Questions::split_share_fits))]
pub fn split_share_fits(m: Node, a: u8) -> bool
    ensures { result ≡ split_share_fits m a }
{
    if m.child_number == 0 {
        a == 0
    } else {
        1 <= a && a < m.child_number
    }
}

// No child lacks one of the first gc buffers once c has them all.
#[tactic(auto, unfolding(crate::specs::Questions::gc_fits))]
pub fn gc_fits(n: Node, c: u8, gc: u8) -> bool
    ensures { result ≡ gc_fits n c gc }
{
    let offsets = eights::replace(n.offsets, c, 1, &[n.buffer_number]);
    eights::at_least(counting::part(&offsets, 0, n.child_number), gc) && gc <= n.buffer_number
}

#[tactic(auto, unfolding(crate::specs::Questions::part_fits))]
pub fn part_fits(n: Node, start: u8, end: u8) -> bool
    ensures { result ≡ part_fits n start end }
{
    start < end && end <= n.buffer_number
}

// ---- 8, the input of a commit

// The buffers from `start` up to `end` are exactly the `number` roots of the input.
// `number` is compared as it stands, also above eight, which a slice of the eight places cannot tell.
#[tactic(auto, unfolding(crate::specs::Questions::part_is))]
pub fn part_is(n: Node, start: u8, end: u8, number: u8, input: [u8; 8]) -> bool
    ensures { result ≡ part_is n start end number input }
{
    if end.saturating_sub(start) != number {
        return false;
    }
    (usize::from(start)..usize::from(end))
        .zip(&input)
        .all(|(at, root)| eights::place(n.buffers, at) == *root)
}

// ---- 9, the sizes

pub fn room_for_buffer(n: Node) -> bool
    ensures { result ≡ room_for_buffer n }
{
    n.buffer_number < 8
}

pub fn room_for_child(n: Node) -> bool
    ensures { result ≡ room_for_child n }
{
    n.child_number < 8
}

// The child has room for what it gains.
pub fn flush_room(n: Node, m: Node, c: u8) -> bool
    ensures { result ≡ flush_room n m c }
{
    let gained = n.buffer_number.saturating_sub(offset_of(n, c));
    usize::from(m.buffer_number) + usize::from(gained) <= 8
}
