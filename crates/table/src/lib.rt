#![tactic(auto)]

// An ordered table over a lent run of entries, for every kind of entry whose keys have a total order.
// `entry` says what a kind of entry owes and `lines` has the two kinds in use; `run` moves entries, `table` has the table itself and
// `full` its refusal; `laws` carries the laws of what a table means.
pub mod entry;
pub mod full;
pub mod laws;
pub mod lines;
mod run;
pub mod table;
