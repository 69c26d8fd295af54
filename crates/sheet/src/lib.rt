#![tactic(auto)]

// A lent sheet of change lines: how it is blanked (`filling`). What a sheet and a part of it hold while they are filled is said in specs/.
pub mod filling;
