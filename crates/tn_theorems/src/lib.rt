//! The theorems that go over more than one session: of a server's and a client's session, in threads (T2) and in one
//! loop (T4); of both programs (T3); and that the threads of a session never get stuck.
//!
//! Each is a function without a body in a module `laws`: what it ensures is the theorem. Only `sessions::Joined`,
//! which runs both cores in one loop, has code.
#![tactic(auto)]

pub mod programs;
pub mod progress;
pub mod sessions;
