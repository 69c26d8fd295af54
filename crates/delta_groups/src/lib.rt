#![tactic(auto)]

// The change of the operators that add up lines in a work space, one file for each: `pick` (projection) and `total` (group-by aggregate).
// `image` makes the row of the listed columns, `gather` adds copies up in a table, and `images` does so over the lines of a change; of a
// total, `group` makes and reads the rows of groups, `values` adds up what a change is worth, and `exchange` writes old and new rows.
mod exchange;
pub mod gather;
pub mod group;
pub mod image;
mod images;
pub mod pick;
pub mod total;
mod values;
