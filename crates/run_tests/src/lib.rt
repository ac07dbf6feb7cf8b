//! Tests of what only a caller of whole runs can ask: runs and sessions over devices that take little, give little, or fail,
//! and a disk in memory.
//!
//! They are as those of `library_tests`, and apart from them because each proof of a function here reads all that a run
//! consists of.
#![tactic(auto)]

#[cfg(test)]
mod memory_disk;
#[cfg(test)]
mod runs;
#[cfg(test)]
mod sessions;
