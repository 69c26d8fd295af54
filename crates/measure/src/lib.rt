#![tactic(auto)]

// The trait `Measure` with its laws (`measure`), and the measures: `head_count`, `sum`, `check_mark`, and two of them `side_by_side`.
// `columns` moves columns between rows; `follow` keeps the value of a bag's column from changes alone; `round_trip` shows a value and
// reads it back.
// `laws` carries what holds of the measures, worked values among them; `aggregate` hands a measure to the laws of crate `bag`.
pub mod aggregate;
pub mod check_mark;
pub mod columns;
pub mod follow;
pub mod head_count;
pub mod laws;
pub mod measure;
pub mod round_trip;
pub mod side_by_side;
pub mod sum;
