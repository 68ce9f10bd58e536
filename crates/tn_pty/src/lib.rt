//! A pair: a terminal between a master, which types keys and pulls what is shown, and a slave,
//! which reads entries and writes output (pty(7)).
//!
//! Begin with `Pair`, and with `Symbol` of `tn_discipline`, which is what it shows.
//!
//! ```
//! let mut pair = Pair::new(alloc, Settings::standard(), Limit::standard())?;
//! pair.raw_key(0x61, true)?; // typed, and echoed
//! pair.raw_key(0x0d, true)?;
//! pair.take(); // Some(Entry::Text("a\n"))
//! pair.pull(99, &mut symbols)?; // Byte(97), Newline
//! ```
//!
//! It is no kernel pseudoterminal: it has no file, no process group and no signals, and never
//! blocks.
#![tactic(auto)]

pub use pty::{Input, Pair, PtyFault};
pub use symbols::QUEUE_SYMBOLS;

mod pty;
mod slots;
mod symbols;
