//! The arguments of the command line of `tn`, and the run for which they ask.
//!
//! Begin with `read_words`, and with `Asked`, which is what it returns.
//!
//! ```
//! let asked = read_words(alloc, &["tn", "connect", "--port", "2323"])?;
//! ```
//!
//! It runs nothing itself.

pub use commands::VERSION_LINE;
pub use flags::is_connect_flag;
pub use settings::{
    Address, Characters, ConnectWords, Escape, Mode, Port, ReturnBytes, ServeWords, Socket,
    USUAL_HEIGHT, USUAL_WIDTH,
};
pub use tn_lines::LineEnd;
pub use tn_net::network::{Dialing, Family};
pub use words::{Asked, WordsFault, read_words};

mod choices;
mod commands;
mod connecting;
mod dialing;
mod flags;
mod lacks;
mod options;
mod places;
mod serving;
mod settings;
mod sockets;
mod values;
mod words;
