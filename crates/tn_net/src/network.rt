//! The network as the program asks for it: each call leaves contracts evidence of what was asked.
//!
//! Begin with `Network`, the trait with these calls, and with `reach`, which connects to a host.
//!
//! ```
//! let listener = rt.listen("127.0.0.1", 2323, None)?;
//! let stream = reach(&rt, "127.0.0.1", 2323, 0, &mut Unheard, &mut causes)?;
//! ```
//!
//! No contract can state what a network does. So `Network` has relations that only its calls give:
//! generic code has no other way to them, and if a contract passes one on, it states which host and
//! which port were asked for. Its one implementation passes each call on to the machine's network.
//! That this does as it was asked is read, not proved.

pub use asking::Network;
pub use dialing::{Dialing, Family};
pub use paths::{ListeningOn, names_path};
pub use peers::Peer;
pub use reaching::{Trying, Unheard, reach, reach_by, reach_service};

mod asking;
mod dialing;
mod handed;
mod paths;
mod peers;
mod reaching;
mod sourced;
