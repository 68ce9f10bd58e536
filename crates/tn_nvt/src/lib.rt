//! Reads and writes a Telnet stream as a list of items, and reads it into a sink (RFC 854, 855).
//!
//! Begin with `Decoder`, which reads a stream in pieces, and `Item`, which is what it reads. The
//! `put_` calls write items.
//!
//! ```
//! let mut decoder = Decoder::new(alloc);
//! decoder.feed(b"ls\r", &mut items)?; // Byte(108), Byte(115); the CR waits for its next byte
//! decoder.feed(b"\0", &mut items)?; // Byte(13)
//! put_neg(Verb::Will, 34, &mut out)?; // ff fb 22
//! ```
//!
//! It does not answer option messages, returns a subnegotiation's parameters as they came, and
//! ignores urgent data and Synch.
#![tactic(auto)]

pub use decoding::{Decoder, NvtFault};
pub use items::Item;
pub use parameters::Params;
pub use places::MAX_PARAMETERS;
pub use sinks::{Refused, Sink};
pub use writing::{put_byte, put_cmd, put_neg, put_newline, put_sub};

mod bytes;
mod decoding;
mod escapes;
mod handing;
mod items;
pub mod laws;
mod parameters;
mod places;
mod plain;
mod sinks;
mod writing;
