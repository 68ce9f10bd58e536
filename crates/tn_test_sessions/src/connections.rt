//! Tests of sessions over connections of this machine, of their services and of the program, with a
//! sentence as the name of each. Nothing in this crate is part of the program, and nothing of it is
//! proved except that it is safe.

mod tests;
