// The counts of every node and branch, by a walk of all ways: a node, then its list of children, which visits nodes again. True of
// every tree, right or not: the depth bounds the walk.
#![tactic(auto)]

ghost use Rattle.std.specs.Prelude.{◌<◌, List, [], ◌∷◌};
ghost use Rattle.ways.specs.Ways.{visits, flat};
ghost use Rattle.counting.specs.Graph.{children_in};
ghost use Rattle.recount.specs.Walks.{Outcome, counted, places_of, visit_of, counts_of};
ghost use Rattle.recount.specs.Recounts.{Recounted};

use units::{BranchRoot, NodeUnit, Refusal, Unit};

// Nodes on a way.
const LONGEST: u8 = 8;

// One more at a place, where the count has not reached 65,535.
fn count_one(counts: &mut [u16; 512], at: usize) -> Result<(), Refusal>
    requires { at < 512 }
    ensures { Outcome (counted counts.old (at ∷ [])) counts.new result }
{
    counts[at] = counts[at].checked_add(1).ok_or(Refusal::RecountTooHigh)?;
    Ok(())
}

// One more place for each of the buffers.
fn count_buffers(counts: &mut [u16; 512], buffers: &[u8]) -> Result<(), Refusal>
    ensures { Outcome (counted counts.old (places_of buffers.now)) counts.new result }
{
    for &b in buffers {
        count_one(counts, counting::PLACES + BranchRoot(b).index())?;
    }
    Ok(())
}

// A visit of one node: one way more to it, and one place more for each of its buffers.
fn count_node(tree: &[u8; 6656], counts: &mut [u16; 512], u: NodeUnit) -> Result<(), Refusal>
    ensures { Outcome (counted counts.old (visit_of tree.now u.0)) counts.new result }
{
    count_one(counts, u.index())?;
    let n = counting::read_node(tree, u);
    let buffers = counting::part(&n.buffers, 0, n.buffer_number);
    count_buffers(counts, buffers)
}

// The node and all below it, as far down as the depth.
#[cycle(walk_children_walk_node)]
pub fn walk_node(
    tree: &[u8; 6656],
    counts: &mut [u16; 512],
    u: NodeUnit,
    depth: u8,
) -> Result<(), Refusal>
    ensures { Outcome (counted counts.old (counts_of tree.now (visits (children_in tree.now) depth u.0))) counts.new result }
{
    if depth == 0 {
        return Ok(());
    }
    count_node(tree, counts, u)?;
    let n = counting::read_node(tree, u);
    let children = counting::part(&n.children, 0, n.child_number);
    walk_children(tree, counts, children, depth - 1)
}

// A child that stands there twice is visited twice. At depth 0 none is, and none is called.
#[cycle(walk_children_walk_node)]
fn walk_children(
    tree: &[u8; 6656],
    counts: &mut [u16; 512],
    children: &[u8],
    depth: u8,
) -> Result<(), Refusal>
    ensures { Outcome (counted counts.old (counts_of tree.now (flat (visits (children_in tree.now) depth) children.now))) counts.new result }
{
    if depth == 0 {
        return Ok(());
    }
    for &c in children {
        walk_node(tree, counts, NodeUnit(c), depth)?;
    }
    Ok(())
}

// The counts that the tree has, in place of what stood there. Refused, what stands there is of no use.
pub fn recount(tree: &[u8; 6656], counts: &mut [u16; 512]) -> Result<(), Refusal>
    ensures { Recounted tree.now counts.new result }
{
    *counts = [0; 512];
    let root = counting::root(tree);
    if root.is_none() {
        return Ok(());
    }
    walk_node(tree, counts, root, LONGEST)
}
