#![tactic(auto)]

// Change lines applied to any stock: settling them, takes before puts (`settling`), how many lines are in use afterwards (`room`),
// and that the lines of a sheet lead to the new boards (`laws`).
pub mod laws;
pub mod room;
pub mod settling;
