//! Tests of both ends together and of the program's runs: scripts with their results, with a
//! sentence as the name of each, and random worlds compared with one local terminal. Nothing in
//! this crate is part of the program, and nothing of it is proved except that it is safe and ends.

mod tests;
