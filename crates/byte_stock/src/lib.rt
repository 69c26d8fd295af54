#![tactic(auto)]

// A stock that keeps its lines in lent bytes. `bytes` has the stock; `byte_line` reads and writes one line, and `byte_search` finds
// lines.
mod byte_line;
mod byte_search;
pub mod bytes;
