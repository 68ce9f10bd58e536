//! Prints the items of a Telnet stream, one line for each (RFC 854, 855, 1073, 1184).
//!
//! Begin with `Lines`, which takes the items of a `Decoder` of `tn_nvt`, and `Prefix`, the text
//! before each line.
//!
//! ```
//! let mut lines = Lines::new(alloc, Prefix::Empty);
//! let mut decoder = Decoder::new(alloc);
//! decoder.feed_to(b"ls\r\n\xff\xfb\x22l", &mut lines)?;
//! lines.text(); // data "ls", newline and IAC WILL LINEMODE, each with its line feed; the l is held
//! lines.end_data()?; // and now data "l"
//! ```
//!
//! Data are joined wherever the stream was cut, and a line has at most 64 bytes of them. The crate
//! reads nothing itself: bytes at the end of a stream that are less than an item are not printed.

pub use printer::{Lines, Prefix};

mod data;
mod items;
pub mod laws;
mod names;
mod payloads;
mod printer;
mod words;
