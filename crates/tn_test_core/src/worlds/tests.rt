//! The tests.

mod agreement;
mod arguments;
mod decoding;
mod forward;
mod keys;
mod midline;
mod playing;
mod programs;
mod random_prints;
mod random_terminals;
mod refusals;
mod worlds;
