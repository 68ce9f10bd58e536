//! The core of a running client session: only this machine uses the client end, one message at a
//! time.
//!
//! ```
//! let mut core = Core::start(alloc, 80, 24, Limit::standard())?;
//! let told = Told { from: Origin::Keys, message: Message::Piece(keys) };
//! let mark = core.handle(told, &mut out, &mut screen); // to the network, and to the screen
//! ```
//!
//! ```text
//! Piece, Resized, Asked, Left from the keys +
//! Piece, Left from the network ------------+--> Core --> bytes to the network
//! HangUp, ReadFailed, Refused from each ---+     |
//!                                                +-----> bytes to the screen
//! ```
//!
//! Once no more keys come it sends nothing more, and still shows what comes. It has no handle and
//! never blocks: it reads and writes nothing itself, and opens no connection.
pub use crate::client::machine::Core;
pub use crate::client::messages::{ClientMark, Origin, Told};
pub use crate::client::progress::ClientProgress;
pub use crate::client::terms::Terms;

mod commands;
pub mod laws;
mod machine;
mod messages;
mod progress;
mod terms;
