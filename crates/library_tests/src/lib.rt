//! Tests of what only a caller of the libraries can ask: places in a text, which of several faults was found, what a
//! type returns and is made from, what is counted and not printed, and single calls. Those of whole runs are in
//! `run_tests`.
//!
//! What can be asked of the program itself is in the tables of tests/tables. These tests show what no contract states:
//! that a call succeeds when memory is ample, and that the definitions mean what their readers think they mean. The
//! expected values were written by hand.
//!
//! A test is a subject. Each of its questions is a function that answers whether something is so, and the test asserts
//! that: each assertion and each test costs a proof several times what such a function does.
#![tactic(auto)]

#[cfg(test)]
mod database;
#[cfg(test)]
mod engine;
#[cfg(test)]
mod events;
#[cfg(test)]
mod faults;
#[cfg(test)]
mod indexes;
#[cfg(test)]
mod rules;
#[cfg(test)]
mod slow_disk;
#[cfg(test)]
mod streams;
#[cfg(test)]
mod text;
