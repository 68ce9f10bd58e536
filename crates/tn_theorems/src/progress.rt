//! The proof that a session does not get stuck: its threads and channels as a system of steps, and
//! laws of it.
//!
//! Begin with `laws`; `specs/Server.antt` and `specs/Client.antt` have the two systems.

pub mod laws;
