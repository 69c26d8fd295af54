ghost use Rattle.std.specs.Prelude.{◌≡◌, ◌≤◌, true, [], take};
ghost use Rattle.plan.specs.Lawful.{lawful as lawfulBy, widths as widthsBy};

use crate::node::Node;

mod asking;
mod checking;

// A plan for a measure that shows `shown` columns, in fixed memory: the first `len` nodes, each with the width of its rows.
// The nodes are no ArrayVec, since a plan can be copied and an ArrayVec cannot.
// The widths stand beside the nodes, since whatever reads or asks for a node needs those of the lower nodes as one slice.
// Every node names lower nodes and columns below their widths, and no row is wider than 8.
#[derive(Clone, Copy)]
pub struct Plan {
    nodes: [Node; 16],
    widths: [u8; 16],
    len: usize,
    shown: u8,
    ghost some: { 1 ≤ len },
    ghost few: { len ≤ 16 },
    ghost narrow: { shown ≤ 8 },
    ghost lawful: { lawfulBy shown [] (take len nodes) ≡ true },
    ghost wide: { take len widths ≡ widthsBy shown [] (take len nodes) },
}
