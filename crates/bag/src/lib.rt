#![tactic(auto)]

// Rows and their order (`row`), the lines that stores and sheets are made of (`lines`), and the test of a keep (`condition`).
// What bags, changes, groups, measures and operators mean stands in specs/, over these same types.
// `laws` carries the laws of that meaning as contracts, one function for each; `instances` shows that its traits can be met.
pub mod condition;
pub mod instances;
pub mod laws;
pub mod lines;
pub mod row;
