// The refusal of a table: it has as many entries as its run has places, and the key to be added is not among them.
#[derive(Clone, Copy, PartialEq, Eq, Debug)]
pub struct Full {
    // the length of the run
    pub places: usize,
}
