// The tree in the lent arrays: node u stands at u * 26 of `tree`, whose first byte is the root; `counts` has the ways to node u at u
// and the places of branch b in the buffers at 256 + b. On arrays that are not right every function still ends within bounds.
// Nodes lie in an array and name one another by unit, with no heap: memory is fixed, and the arrays are lent, by C too, each to the
// functions that may change it.
#![tactic(auto)]

ghost use Rattle.std.specs.Prelude.{◌-◌, ◌≡◌, ℕ, get_or, set};
ghost use Rattle.rules.specs.Tables.{slice};
ghost use Rattle.counting.specs.Nodes.{node_in, put_node, bytes_of};
ghost use Rattle.counting.specs.Change.{last_way, drop_tree, drop_count};
ghost use Rattle.counting.specs.Places.{place_of, Computes, change_places, add_place, drop_place, add_places, drop_places};

use units::{BranchRoot, NodeUnit, Unit};

// The bytes of a node's row.
pub const STRIDE: usize = 26;

// Where in the row the number of children and the children stand.
pub const CHILD_NUMBER: usize = 9;

pub const CHILDREN: usize = 10;

// Where the branches' counts begin.
pub const PLACES: usize = 256;

// ---- nodes

// A number beside each eight places, as the row has them: fixed memory, and a row that is not right may name more than eight. `node_in`,
// which `read_node` promises, keeps each number beside its places.
#[derive(Clone, Copy, Debug, Default, PartialEq, Eq)]
pub struct Node {
    pub buffer_number: u8,
    pub buffers: [u8; 8],
    pub child_number: u8,
    pub children: [u8; 8],
    pub offsets: [u8; 8],
}

pub fn root(tree: &[u8; 6656]) -> NodeUnit
    ensures { result.0 ≡ get_or tree.now 0 0 }
{
    NodeUnit(tree[0])
}

pub fn set_root(tree: &mut [u8; 6656], r: NodeUnit)
    ensures { tree.new ≡ set tree.old 0 r.0 }
{
    tree[0] = r.0;
}

#[tactic(auto, unfolding(crate::specs::Nodes::node_in))]
pub fn read_node(tree: &[u8; 6656], u: NodeUnit) -> Node
    ensures { result ≡ node_in tree.now u.0 }
{
    let at = u.index() * STRIDE;
    Node {
        buffer_number: tree[at],
        buffers: records::eight(tree, at + 1),
        child_number: tree[at + CHILD_NUMBER],
        children: records::eight(tree, at + CHILDREN),
        offsets: records::eight(tree, at + 18),
    }
}

// The row of a node, which a record of it has too.
#[tactic(auto, using(records::specs::Rows::eight_all))]
pub fn bytes_of(n: Node) -> [u8; STRIDE]
    ensures { result ≡ bytes_of n }
{
    let mut row = [0; STRIDE];
    row[0] = n.buffer_number;
    row[1..9].copy_from_slice(&n.buffers);
    row[CHILD_NUMBER] = n.child_number;
    row[CHILDREN..18].copy_from_slice(&n.children);
    row[18..].copy_from_slice(&n.offsets);
    row
}

// Unit 0 has no node: its row holds the root, which stays.
#[tactic(auto, unfolding(crate::specs::Nodes::put_node))]
pub fn write_node(tree: &mut [u8; 6656], u: NodeUnit, n: Node)
    ensures { tree.new ≡ put_node tree.old u.0 n }
{
    if u.is_none() {
        return;
    }
    records::pour(tree, u.index() * STRIDE, &bytes_of(n));
}

// ---- ways

pub fn ways_of(counts: &[u16; 512], u: NodeUnit) -> u16
    ensures { result ≡ get_or counts.now u.0 0 }
{
    counts[u.index()]
}

#[tactic(auto, unfolding(crate::specs::Change::last_way))]
fn last_way(counts: &[u16; 512], u: NodeUnit) -> bool
    ensures { result ≡ last_way counts.now u.0 }
{
    counts[u.index()] <= 1
}

// One way to the node goes, and with the last way the node: the answer says whether it went.
#[tactic(auto, using(crate::specs::Nodes::all_zero), unfolding(crate::specs::Change::blanked_if, crate::specs::Change::drop_count))]
pub fn drop_way(tree: &mut [u8; 6656], counts: &mut [u16; 512], u: NodeUnit) -> bool
    ensures tree { tree.new ≡ drop_tree tree.old counts.old u.0 }
    ensures counts { counts.new ≡ drop_count counts.old u.0 }
    ensures died { result ≡ last_way counts.old u.0 }
{
    let last = last_way(counts, u);
    if last {
        write_node(tree, u, Node::default());
    }
    let at = u.index();
    counts[at] = counts[at].saturating_sub(1);
    last
}

// A node comes, with one way to it.
pub fn add_node(tree: &mut [u8; 6656], counts: &mut [u16; 512], u: NodeUnit, n: Node)
    ensures tree { tree.new ≡ put_node tree.old u.0 n }
    ensures counts { counts.new ≡ set counts.old u.0 1 }
{
    write_node(tree, u, n);
    counts[u.index()] = 1;
}

// ---- places

pub fn places_of(counts: &[u16; 512], b: BranchRoot) -> u16
    ensures { result ≡ get_or counts.now (place_of b.0) 0 }
{
    counts[PLACES + b.index()]
}

// The places from, from + 1, .. below `to`, of eight.
pub fn part(places: &[u8; 8], from: u8, to: u8) -> &[u8]
    ensures { result.now ≡ slice from (to - from) places.now }
{
    let end = usize::from(to).min(8);
    let start = usize::from(from).min(end);
    &places[start..end]
}

// The count of each branch becomes what `f` makes of it, one branch after the other.
fn change_places<F: Fn(u16) -> u16>(counts: &mut [u16; 512], bs: &[u8], f: F)
    requires { F.IsAlwaysCallable f }
    ensures { (g : ℕ → ℕ) → Computes (F.post f) g → counts.new ≡ change_places g counts.old bs.now }
{
    for &b in bs {
        let at = PLACES + usize::from(b);
        counts[at] = f(counts[at]);
    }
}

// One more place for each of the branches; the highest count stays, so that no array makes it wrap.
pub fn add_places(counts: &mut [u16; 512], bs: &[u8])
    ensures { counts.new ≡ add_places counts.old bs.now }
{
    change_places(counts, bs, |c| c.saturating_add(1));
}

// One place less for each of them, and never below 0.
pub fn drop_places(counts: &mut [u16; 512], bs: &[u8])
    ensures { counts.new ≡ drop_places counts.old bs.now }
{
    change_places(counts, bs, |c| c.saturating_sub(1));
}

pub fn add_place(counts: &mut [u16; 512], b: BranchRoot)
    ensures { counts.new ≡ add_place counts.old b.0 }
{
    add_places(counts, &[b.0]);
}

pub fn drop_place(counts: &mut [u16; 512], b: BranchRoot)
    ensures { counts.new ≡ drop_place counts.old b.0 }
{
    drop_places(counts, &[b.0]);
}
