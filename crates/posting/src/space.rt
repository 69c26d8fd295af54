use bag::lines::ChangeLine;

// Where images and groups are added up: lines, and a measure's value for each of them. A sheet has at most 8,192 lines, so there
// are never more images or groups of one change. Two arrays, as the lines alone are kept in an ordered table; no heap is used.
#[derive(Clone, Copy)]
pub struct WorkSpace<V> {
    pub lines: [ChangeLine; 8192],
    pub values: [V; 8192],
}
