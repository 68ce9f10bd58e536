//! The content of a handle.

use crate::parts::{HeldClient, HeldDecoder, HeldLine, HeldServer};

/// The content of a handle.
#[derive(Drop)]
pub enum Held {
    Line(HeldLine),
    Decoder(HeldDecoder),
    Server(HeldServer),
    Client(HeldClient),
}
