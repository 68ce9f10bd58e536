//! Two sessions at once, a server's and a client's: in threads, with a socket between them, as
//! their contracts state, and their machines in one loop, with nothing between them but two lists
//! of bytes.
//!
//! Begin with the laws in `laws`, and with `Joined`, which runs both machines in one loop. The
//! crate has no handle.

pub use one_loop::{Joined, LoopEvent};

pub mod laws;
mod one_loop;
