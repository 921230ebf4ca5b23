// Kind 6, split: the child at a place of the path's target becomes two nodes, left with the first of its children and right with the
// others. The body has 20 bytes: depth, seven indexes, seven fresh units, child, share, and the units of parent, left and right.
#![tactic(auto)]

ghost use Rattle.std.specs.Prelude.{◌≡◌};
ghost use Rattle.splitting.specs.Split.{split_tests, split_tree, split_counts, split_map};

use units::NodeUnit;

// The tests of the lines 4 to 12; a node that is not there is read at unit 0, where an earlier line has failed.
pub fn split_tests(
    tree: &[u8; 6656],
    counts: &[u16; 512],
    map: &[u64; 4],
    body: &[u8; 20],
) -> [bool; 9]
    ensures { result ≡ split_tests tree.now counts.now map.now body.now }
{
    let path = bodies::path_of(body);
    let c = body[15];
    let ends = pathed::ends_of(tree, path.indexes, c);
    let n = ends.node;
    let m = ends.below;
    let buffers = m.buffers;
    let units = [body[17], body[18], body[19]];
    let shape = bodies::path_shape(body[0], &body[1..8], &body[8..15]) && pathed::is_index(c);
    let leads = ends.leads_to;
    let range = shapes::split_share_fits(m, body[16]);
    let small = shapes::room_for_child(n);
    let fresh = pathed::fresh_units(map, path.fresh, &units);
    let gained = counting::part(&buffers, 0, m.buffer_number);
    let fit = allocation::gains_fit(counts, gained, &[]);
    [shape, true, leads, range, true, small, true, fresh, fit]
}

// Carries an accepted split out.
pub fn split(tree: &mut [u8; 6656], counts: &mut [u16; 512], map: &mut [u64; 4], body: &[u8; 20])
    ensures tree { tree.new ≡ split_tree tree.old counts.old body.now }
    ensures counts { counts.new ≡ split_counts tree.old counts.old body.now }
    ensures map { map.new ≡ split_map tree.old counts.old map.old body.now }
{
    let path = bodies::path_of(body);
    let c = body[15];
    let a = body[16];
    let f = NodeUnit(body[17]);
    let l = NodeUnit(body[18]);
    let r = NodeUnit(body[19]);
    let units = [body[17], body[18], body[19]];
    let ends = pathed::ends_of(tree, path.indexes, c);
    let n = ends.node;
    let m = ends.below;
    let copied = pathed::copy(tree, counts, map, path, &units, f);
    counting::add_node(tree, counts, f, shapes::split_parent(n, c, l, r));
    counting::add_node(tree, counts, l, shapes::left_of(m, a));
    counting::add_node(tree, counts, r, shapes::right_of(m, a));
    let target = ends.target.unwrap_or_default();
    pathed::leave(tree, counts, map, copied, target, ends.child);
    counting::add_places(counts, counting::part(&m.buffers, 0, m.buffer_number));
}
