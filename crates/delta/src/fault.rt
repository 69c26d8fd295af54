// Why the new bag of a node cannot be kept.
#[derive(Clone, Copy, PartialEq, Eq, Debug)]
pub enum NodeFault {
    // A row would have more copies than a line can count.
    Over,
    // The measure of a group that has copies does not fit its columns.
    Wide,
}
