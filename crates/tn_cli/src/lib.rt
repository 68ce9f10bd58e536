//! The subcommands of `tn`, over any reader and writer.
//!
//! Begin with `run_local` and the other `run_` calls, and with `CliFault`, which says why one
//! failed.
//!
//! ```
//! run_local(alloc, &mut b"ab\x7fc\r".as_slice(), &mut output)?; // text 61630a
//! ```
//!
//! `run_decode` writes as it reads, and so filters a pipe that never ends; the others read all of their
//! input first. `arguments` reads the command line, and `hosts` the user's own file of hosts. `tn_serve` serves,
//! `tn_connect` connects, and `tn_program` runs what a command line asks for.
#![tactic(auto)]

pub use crate::arguments::{
    Address, Asked, Characters, ConnectWords, Escape, ServeWords, WordsFault, read_words,
};
pub use decode::run_decode;
pub use fault::CliFault;
pub use local::run_local;
pub use replay::run_replay;
pub use tn_session::roster::note;
pub use unprinted::{Dropped, Left, Unprinted};
pub use world::run_world;

pub mod arguments;
mod decode;
mod fault;
pub mod hosts;
mod local;
mod playing;
mod printed;
mod replay;
mod scripts;
mod streams;
mod typing;
mod unprinted;
mod world;
