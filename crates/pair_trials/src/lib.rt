//! Trials of the pair of nodes: worked scripts, crashes at each call of each disk, and random events beside a
//! slow twin. It has tests alone.
#![tactic(auto)]

#[cfg(test)]
mod crash_tests;
#[cfg(test)]
mod disks;
#[cfg(test)]
mod edits;
#[cfg(test)]
mod row_tests;
#[cfg(test)]
mod tried;
#[cfg(test)]
mod twin_answers;
#[cfg(test)]
mod twin_events;
#[cfg(test)]
mod twin_rows;
#[cfg(test)]
mod twin_tests;
#[cfg(test)]
mod twin_world;
