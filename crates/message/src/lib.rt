#![tactic(auto)]

// Movement messages: what gates write, read into records and written back.
// `record` and `fault` have a record and the refusals; `map` has the bits of a map, `field` cuts fields from bytes, `put` lays them into a buffer.
// `reader` is the cursor, `record_list` a whole message, `writer` the way back; `round_trip` and `laws` say what holds of both.
pub mod fault;
mod field;
pub mod laws;
mod map;
mod put;
pub mod reader;
pub mod record;
pub mod record_list;
pub mod round_trip;
pub mod writer;
