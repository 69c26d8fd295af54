#![tactic(auto)]

// Plans with their expected answers: each cause at each operator where it can occur, and the edges of every limit.

#[cfg(test)]
mod asking;
#[cfg(test)]
mod checking;
#[cfg(test)]
mod lists;
#[cfg(test)]
mod nodes;
#[cfg(test)]
mod sides;
