// Kind 7, flush: the child at a place of the path's target gains the target's buffers from its offset on, and the target's first buffers
// go. The body has 19 bytes: depth, seven indexes, seven fresh units, child, number of buffers that go, units of parent and new child.
#![tactic(auto)]

ghost use Rattle.std.specs.Prelude.{◌≡◌};
ghost use Rattle.flushing.specs.Flush.{flush_tests, flush_tree, flush_counts, flush_hold, flush_map};

use units::NodeUnit;

// The tests of the lines 4 to 12; a node that is not there is read at unit 0, where an earlier line has failed.
pub fn flush_tests(
    tree: &[u8; 6656],
    counts: &[u16; 512],
    map: &[u64; 4],
    body: &[u8; 19],
) -> [bool; 9]
    ensures { result ≡ flush_tests tree.now counts.now map.now body.now }
{
    let path = bodies::path_of(body);
    let c = body[15];
    let gc = body[16];
    let ends = pathed::ends_of(tree, path.indexes, c);
    let n = ends.node;
    let buffers = n.buffers;
    let units = [body[17], body[18]];
    let shape = bodies::path_shape(body[0], &body[1..8], &body[8..15]) && pathed::is_index(c);
    let leads = ends.leads_to;
    let range = shapes::gc_fits(n, c, gc);
    let small = shapes::flush_room(n, ends.below, c);
    let fresh = pathed::fresh_units(map, path.fresh, &units);
    let offset = shapes::offset_of(n, c);
    let gained = counting::part(&buffers, offset, n.buffer_number);
    let lost = counting::part(&buffers, 0, gc);
    let fit = allocation::gains_fit(counts, gained, lost);
    [shape, true, leads, range, true, small, true, fresh, fit]
}

// Carries an accepted flush out.
pub fn flush(
    tree: &mut [u8; 6656],
    counts: &mut [u16; 512],
    hold: &mut [u8; 2380],
    map: &mut [u64; 4],
    body: &[u8; 19],
)
    ensures tree { tree.new ≡ flush_tree tree.old counts.old body.now }
    ensures counts { counts.new ≡ flush_counts tree.old counts.old body.now }
    ensures hold { hold.new ≡ flush_hold tree.old counts.old hold.old body.now }
    ensures map { map.new ≡ flush_map tree.old counts.old hold.old map.old body.now }
{
    let path = bodies::path_of(body);
    let c = body[15];
    let gc = body[16];
    let f = NodeUnit(body[17]);
    let g = NodeUnit(body[18]);
    let units = [body[17], body[18]];
    let ends = pathed::ends_of(tree, path.indexes, c);
    let n = ends.node;
    let buffers = n.buffers;
    let offset = shapes::offset_of(n, c);
    let copied = pathed::copy(tree, counts, map, path, &units, f);
    counting::add_node(tree, counts, f, shapes::flush_parent(n, c, gc, g));
    counting::add_node(tree, counts, g, shapes::flush_child(n, ends.below, c));
    let target = ends.target.unwrap_or_default();
    pathed::leave(tree, counts, map, copied, target, ends.child);
    counting::drop_places(counts, counting::part(&buffers, 0, gc));
    counting::add_places(counts, counting::part(&buffers, offset, n.buffer_number));
    allocation::sweep(counts, hold, map, buffers);
}
