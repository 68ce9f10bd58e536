//! LINEMODE at its two ends (RFC 1184): which special characters both have, and who edits lines;
//! how option messages and payloads are sent, and how a subnegotiation is read if its option is on.
//!
//! Begin with `ServerMode` and `ServerTable` at a server, or `ClientMode` and `ClientTable` at a
//! client.
//!
//! ```
//! let mut mode = ServerMode::new();
//! put_mode(mode.wish(3), &mut out)?; // ff fa 22 01 03 ff f0
//! mode.got(7); // None: the client has acknowledged it, and it is in force
//! ```
//!
//! It edits nothing, and keeps no forward mask; each end decides what it sends when. SOFT_TAB and
//! LIT_ECHO are ignored.
#![tactic(auto)]

pub use client_mode::ClientMode;
pub use client_table::ClientTable;
pub use masks::Mode;
pub use reading::read_under;
pub use sending::{put_list, put_mode, put_payload, put_triple, put_word};
pub use server_mode::ServerMode;
pub use server_table::ServerTable;
pub use tn_codes::{EDIT, MODE_ACK, TRAPSIG};
pub use triples::triple_of;

mod answering;
mod client_mode;
mod client_table;
pub mod laws;
mod masks;
mod parameters;
mod reading;
mod sending;
mod server_mode;
mod server_table;
mod triples;
