//! The laws over the two programs at once: a server's connection, and a client's.
//!
//! Begin with `laws`. The crate has no handle and no code: its laws are over the contracts of
//! `tn_serve::serve_connection` and `tn_connect::connect`.

pub mod laws;
