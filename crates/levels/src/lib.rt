// Is there a way of so many nodes down from a unit? By sets of units, one map for each level, never a walk of all ways. True of every
// tree, right or not.
#![tactic(auto)]

ghost use Rattle.std.specs.Prelude.{◌≤◌, ◌-◌, ◌≡◌, not, eqb, get_or};
ghost use Rattle.ways.specs.Ways.{sums, deep, flat};
ghost use Rattle.rules.specs.Store.{root_list};
ghost use Rattle.held_map.specs.Left.{left};
ghost use Rattle.counting.specs.Graph.{children_in};
ghost use Rattle.levels.specs.Sets.{marks, below_in};

use held_map::Units;
use units::{NodeUnit, Unit};

// The children of a unit join the set.
fn mark_children(tree: &[u8; 6656], u: NodeUnit, below: &mut [u64; 4])
    ensures { below.new ≡ marks below.old (children_in tree.now u.0) }
{
    let n = counting::read_node(tree, u);
    for &c in counting::part(&n.children, 0, n.child_number) {
        held_map::hold(below, c);
    }
}

// Those of each unit that the iterator has left.
fn mark_word(tree: &[u8; 6656], units: Units, below: &mut [u64; 4])
    ensures { below.new ≡ marks below.old (flat (children_in tree.now) (left units)) }
{
    for u in units {
        mark_children(tree, NodeUnit(u), below);
    }
}

// All children of the units in a level join `below`. (`as u8` narrows an index below 4, for which there is no `From`.)
pub fn level_below(tree: &[u8; 6656], level: &[u64; 4], below: &mut [u64; 4])
    ensures { below.new ≡ below_in tree.now level.now below.old }
{
    for (i, &word) in level.iter().enumerate() {
        mark_word(tree, Units::of(word, i as u8 * 64), below);
    }
}

// A way of more than d nodes leads down from u.
pub fn longer(tree: &[u8; 6656], u: NodeUnit, d: u8) -> bool
    ensures { result ≡ not (eqb (deep (children_in tree.now) d u.0) 0) }
{
    let mut level = [0; 4];
    held_map::hold(&mut level, u.0);
    for _ in 0..d {
        let mut below = [0; 4];
        level_below(tree, &level, &mut below);
        level = below;
    }
    held_map::number(&level) != 0
}

// A way of that many nodes or more leads down from the root.
pub fn way_of(tree: &[u8; 6656], nodes: u8) -> bool
    requires { 1 ≤ nodes }
    ensures { result ≡ not (eqb (sums (deep (children_in tree.now) (nodes - 1)) (root_list (get_or tree.now 0 0))) 0) }
{
    let root = counting::root(tree);
    !root.is_none() && longer(tree, root, nodes - 1)
}
