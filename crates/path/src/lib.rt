// A path down the tree: the node that it leads to, the nodes on it, and its copy. An index is a place among a node's children; on
// arrays that are not right every function still ends within bounds.
#![tactic(auto)]

ghost use Rattle.std.specs.Prelude.{◌≡◌, min, ltb, length, get_or, take};
ghost use Rattle.units.specs.Limits.{room};
ghost use Rattle.units.specs.Bodies.{indexes};
ghost use Rattle.ways.specs.Ways.{spine};
ghost use Rattle.records.specs.Rows.{eight};
ghost use Rattle.counting.specs.Change.{add_counts};
ghost use Rattle.path.specs.Graph.{named, with_child, eight_in, found_in, top_of, copied_tree};

use counting::Node;
use units::{NodeUnit, Unit};

// ---- a node's children

// Place i of the eight, whether used or not; 0 behind them.
pub fn child_at(n: Node, i: u8) -> NodeUnit
    ensures { result.0 ≡ get_or n.children i 0 }
{
    let child = n.children.get(usize::from(i)).copied();
    NodeUnit(child.unwrap_or(NodeUnit::NONE))
}

// Whether the index is among the node's children.
pub fn has_child(n: Node, i: u8) -> bool
    ensures { result ≡ ltb i (length (named n)) }
{
    is_index(n.child_number, i)
}

// Whether i is an index among so many children; a number over eight says eight.
fn is_index(number: u8, i: u8) -> bool
    ensures { result ≡ ltb i (min number room) }
{
    i < 8 && i < number
}

// The node with another child in place i. By index: after `get_mut` a proof knows none of the children.
pub fn with_child(mut n: Node, i: u8, c: NodeUnit) -> Node
    ensures { result ≡ with_child n i c.0 }
{
    if i < 8 {
        n.children[usize::from(i)] = c.0;
    }
    n
}

// ---- a path

// The node at the end of the path from u, none where the path leads nowhere. The indexes below a node are the rest of the same path.
// The number of children and the one child are read in place: a whole node would take stack at each index, and a path has any length.
pub fn follow(tree: &[u8; 6656], path: &[u8], u: NodeUnit) -> Option<NodeUnit>
    ensures { result ≡ found_in tree.now path.now u.0 }
{
    let Some((&i, rest)) = path.split_first() else {
        return Some(u);
    };
    let at = u.index() * counting::STRIDE;
    if !is_index(tree[at + counting::CHILD_NUMBER], i) {
        return None;
    }
    let child = tree[at + counting::CHILDREN + usize::from(i)];
    follow(tree, rest, NodeUnit(child))
}

// The units of the nodes on the path from u, root first, zeros after them; of a path at most seven indexes are looked at.
pub fn spine_of(tree: &[u8; 6656], path: &[u8], u: NodeUnit) -> [u8; 8]
    ensures { result ≡ eight (spine (eight_in tree.now) (take indexes path.now) u.0) }
{
    let end = path.len().min(7);
    let mut units = [0u8; 8];
    let mut at = u;
    for (k, &i) in path[..end].iter().enumerate() {
        units[k] = at.0;
        let n = counting::read_node(tree, at);
        at = child_at(n, i);
    }
    units
}

// Copies the nodes on the path from u, each to the unit of `fresh` at its place, from the target upward, each copy naming the one
// below and the last naming t; the answer is the copy of u. Where `fresh` is too short, the copies end with it.
pub fn copy_path(
    tree: &mut [u8; 6656],
    counts: &mut [u16; 512],
    path: &[u8],
    fresh: &[u8],
    u: NodeUnit,
    t: NodeUnit,
) -> NodeUnit
    ensures tree { tree.new ≡ copied_tree tree.old path.now fresh.now u.0 t.0 }
    ensures counts { counts.new ≡ add_counts counts.old (take (length path.now) fresh.now) }
    ensures unit { result.0 ≡ top_of path.now fresh.now t.0 }
{
    let Some((&i, rest)) = path.split_first() else {
        return t;
    };
    let Some((&unit, others)) = fresh.split_first() else {
        return t;
    };
    let f = NodeUnit(unit);
    let n = counting::read_node(tree, u);
    let child = child_at(n, i);
    let below = copy_path(tree, counts, rest, others, child, t);
    counting::add_node(tree, counts, f, with_child(n, i, below));
    f
}
