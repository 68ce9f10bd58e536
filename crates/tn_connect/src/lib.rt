//! A client's session over a connection, in threads of its own.
//!
//! Begin with `connect`, and with `Connecting`, its options; `connect_plain` and `Plain` are for a
//! service that takes lines and negotiates nothing.
//!
//! ```
//! let ended = connect(rt, alloc, "host", connecting, keys, &mut screen, notes)?;
//! ```
//!
//! The bytes that a connection carries are not proved: the session is proved for all bytes that its
//! readers give, and this crate only starts and joins its threads. It encrypts nothing.
#![tactic(auto)]

pub use connected::Connected;
pub use connecting::connect;
pub use fault::ConnectFault;
pub use news::News;
pub use settings::{ClientContext, Connecting, KeySource, Plain};
pub use talks::{TalkReport, connect_plain};
pub use tn_lines::{LineEnd, Over, ReadLog};
pub use tn_net::network::{Dialing, Family};
pub use tn_net::{EditKeys, EditorSettings, Host, Link, OwnCharacters, ReturnKey, Screen, Words};
pub use warnings::Warnings;

mod causes;
mod connected;
mod connecting;
mod fault;
mod news;
mod polls;
mod publishing;
mod sending;
mod settings;
mod talks;
mod text_keys;
mod waiting;
mod warnings;
