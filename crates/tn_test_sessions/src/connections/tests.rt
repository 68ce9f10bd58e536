//! The tests.

mod clients;
mod connections;
mod gateways;
mod lines;
mod programs;
mod wires;
