#![tactic(auto)]

// A posting worked out node by node, from 0 upwards, and proved equal to working afresh.
// `lines` finds the lines of one node; `node` works out one node by its operator, `work` all of them, each on its own part of the
// sheet. `space` is the memory that this needs, `fault` says what is refused and where.
pub mod fault;
pub mod lines;
pub mod node;
pub mod space;
pub mod work;
