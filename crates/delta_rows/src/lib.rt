#![tactic(auto)]

// The change of the operators that go row by row over the changes below them, one file for each: `base`, `keep` (selection), `both`
// (bag union), `less` (bag difference). `condition` is what a keep asks of a row; `merge` goes over two changes at once.
pub mod base;
pub mod both;
pub mod condition;
pub mod keep;
pub mod less;
pub mod merge;
