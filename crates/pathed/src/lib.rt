// What the steps that copy a path share: the nodes at the path's end, the test of the fresh units, the copies that come, and the ways
// that go. On arrays that are not right every function still ends within bounds.
#![tactic(auto)]

ghost use Rattle.std.specs.Prelude.{◌++◌, ◌≡◌, length, get_or, set, take};
ghost use Rattle.rules.specs.Steps.{is_index};
ghost use Rattle.counting.specs.Change.{drop_trees, drop_counts, add_counts};
ghost use Rattle.state.specs.Standing.{marks};
ghost use Rattle.allocation.specs.Going.{let_go_maps};
ghost use Rattle.allocation.specs.Fresh.{fresh_in};
ghost use Rattle.pathed.specs.Pathed.{ends_in, copied_from, copy_tree, going};

use bodies::Path;
use counting::Node;
use units::NodeUnit;

pub fn is_index(i: u8) -> bool
    ensures { result ≡ is_index i }
{
    i < 8
}

// ---- the path's end

// The target, none where the path leads nowhere, and the child at a place of it. A node that is not there is read at unit 0.
#[derive(Clone, Copy, Debug, PartialEq, Eq)]
pub struct Ends {
    pub target: Option<NodeUnit>,
    // A flag, and `child` no Option: `split_tree`, an equation on any arrays, reads the child also where the path leads nowhere.
    pub leads_to: bool,
    pub node: Node,
    pub child: NodeUnit,
    pub below: Node,
}

pub fn ends_of(tree: &[u8; 6656], path: &[u8], c: u8) -> Ends
    ensures { result ≡ ends_in tree.now path.now c }
{
    let target = bodies::target(tree, path);
    let node = counting::read_node(tree, target.unwrap_or_default());
    let leads_to = target.is_some() && path::has_child(node, c);
    let child = path::child_at(node, c);
    let below = counting::read_node(tree, child);
    Ends {
        target,
        leads_to,
        node,
        child,
        below,
    }
}

// ---- fresh units

// No unit of the two lists is 0, held, or named twice.
pub fn fresh_units(map: &[u64; 4], path: &[u8], new: &[u8]) -> bool
    ensures { result ≡ fresh_in map.now (path.now ++ new.now) }
{
    let mut seen = *map;
    allocation::fresh_run(&mut seen, path) && allocation::fresh_run(&mut seen, new)
}

// ---- nodes that come and ways that go

// The nodes on the path as they were, and the topmost copy.
#[derive(Clone, Copy, Debug, PartialEq, Eq)]
pub struct Copied {
    pub spine: [u8; 8],
    pub top: NodeUnit,
}

// The nodes on the path are copied, the last copy naming f; the units of the copies and the new ones come to be held.
#[tactic(auto, unfolding(crate::specs::Pathed::copy_tree, crate::specs::Pathed::spine_in))]
pub fn copy(
    tree: &mut [u8; 6656],
    counts: &mut [u16; 512],
    map: &mut [u64; 4],
    path: Path<'_>,
    new: &[u8],
    f: NodeUnit,
) -> Copied
    ensures tree { tree.new ≡ copy_tree tree.old path.entry.indexes.now path.entry.fresh.now f.0 }
    ensures counts { counts.new
        ≡ add_counts counts.old (take (length path.entry.indexes.now) path.entry.fresh.now) }
    ensures map { map.new ≡ marks (marks map.old path.entry.fresh.now) new.now }
    ensures copied { result ≡ copied_from tree.old path.entry.indexes.now path.entry.fresh.now f.0 }
{
    let root = counting::root(tree);
    let spine = path::spine_of(tree, path.indexes, root);
    let top = path::copy_path(tree, counts, path.indexes, path.fresh, root, f);
    allocation::hold_run(map, path.fresh);
    allocation::hold_run(map, new);
    Copied { spine, top }
}

// One way goes to each node on the path, to the target and to the child, 0 for none; then the topmost copy is the root.
pub fn leave(
    tree: &mut [u8; 6656],
    counts: &mut [u16; 512],
    map: &mut [u64; 4],
    copied: Copied,
    t: NodeUnit,
    h: NodeUnit,
)
    ensures tree { tree.new ≡ set (drop_trees tree.old counts.old (going copied.spine t.0 h.0)) 0 copied.top.0 }
    ensures counts { counts.new ≡ drop_counts counts.old (going copied.spine t.0 h.0) }
    ensures map { map.new ≡ let_go_maps map.old counts.old (going copied.spine t.0 h.0) }
{
    let spine = copied.spine;
    allocation::let_go_eight(tree, counts, map, spine);
    allocation::let_go(tree, counts, map, t);
    allocation::let_go(tree, counts, map, h);
    counting::set_root(tree, copied.top);
}
