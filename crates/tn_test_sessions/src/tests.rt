//! The tests.

mod endless;
mod gates;
mod makers;
mod one_loop;
mod parting;
mod refusals;
mod runs;
mod sessions;
mod sizes;
