//! The messages to a machine of a session.

use crate::streams::{Control, WindowSize};
use tn_discipline::Text;
use tn_jobs::{After, JobId};

/// A message to the terminal or to the core of a client.
#[derive(Debug, Drop)]
pub enum Message {
    /// Bytes came from the network, or from the keys of a client.
    Piece(Text),
    /// No more bytes come.
    HangUp,
    /// Reading failed: no more bytes come.
    ReadFailed,
    /// The foreground job asks for an entry.
    Take,
    /// A job wrote a text and does something next.
    Said {
        job: JobId,
        text: Text,
        after: After,
    },
    /// The window in which a client's keys are typed has got this size.
    Resized(WindowSize),
    /// The user of a client asks for this control function.
    Asked(Control),
    /// A thread found no memory.
    Refused,
    /// A thread ends.
    Left,
}
