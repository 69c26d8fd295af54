#![tactic(auto)]

// The changes that a pending book keeps: up to 64 signed lines, by shelf and row. The book over a stock is a crate of its own.
pub mod pending_lines;
