// The parts of a record's body that name a path: line 4 of its shape, its used parts, and the node that it leads to from the root.
#![tactic(auto)]

ghost use Rattle.std.specs.Prelude.{◌≡◌, [], ◌≤◌, length, get_or};
ghost use Rattle.units.specs.Bodies.{indexes};
ghost use Rattle.rules.specs.Tables.{all, zeros};
ghost use Rattle.rules.specs.Steps.{is_index, path_shape};
ghost use Rattle.bodies.specs.Bodies.{used_of, used_part, target_in};

use units::{NodeUnit, Unit};

fn are_indexes(us: &[u8]) -> bool
    ensures { result ≡ all is_index us.now }
{
    us.iter().all(|&u| u < 8)
}

pub fn is_blank(us: &[u8]) -> bool
    ensures { result ≡ zeros us.now }
{
    us.iter().all(|&u| u == 0)
}

// How many of the seven indexes a depth uses.
#[tactic(auto, unfolding(crate::specs::Bodies::used_of))]
pub fn used(d: u8) -> usize
    ensures { (result ≤ indexes) × (result ≡ used_of d) }
{
    usize::from(d).min(7)
}

// Line 4 of a depth and its indexes: used ones are indexes, the others 0.
pub fn index_shape(d: u8, is: &[u8]) -> bool
    requires { length is.now ≡ indexes }
    ensures { result ≡ path_shape d is.now [] }
{
    let k = usize::from(d);
    k <= 7 && are_indexes(&is[..k]) && is_blank(&is[k..])
}

// The same with the fresh units, of which the unused ones are 0.
#[tactic(auto, using(crate::proofs::Bodies::shape_yes))]
pub fn path_shape(d: u8, is: &[u8], fs: &[u8]) -> bool
    requires { (length is.now ≡ indexes) × (length fs.now ≡ indexes) }
    ensures { result ≡ path_shape d is.now fs.now }
{
    index_shape(d, is) && is_blank(&fs[used(d)..])
}

// Of a body that begins with a depth, seven indexes and seven fresh units: those of both that the depth uses.
#[derive(Clone, Copy, Debug, PartialEq, Eq)]
pub struct Path<'a> {
    pub indexes: &'a [u8],
    pub fresh: &'a [u8],
}

pub fn path_of(body: &[u8]) -> Path<'_>
    requires { 15 ≤ length body.now }
    ensures indexes { result.indexes.now ≡ used_part body.now 1 (get_or body.now 0 0) }
    ensures fresh { result.fresh.now ≡ used_part body.now 8 (get_or body.now 0 0) }
{
    let k = used(body[0]);
    let indexes = &body[1..8];
    let fresh = &body[8..15];
    Path {
        indexes: &indexes[..k],
        fresh: &fresh[..k],
    }
}

// The node at the end of a path from the root; none where the path leads nowhere or the tree is empty.
#[tactic(auto, unfolding(crate::specs::Bodies::target_in))]
pub fn target(tree: &[u8; 6656], path: &[u8]) -> Option<NodeUnit>
    ensures { result ≡ target_in tree.now path.now }
{
    let r = counting::root(tree);
    if r.is_none() {
        return None;
    }
    path::follow(tree, path, r)
}
