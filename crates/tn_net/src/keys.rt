//! Keys of a reader of which nothing else is known: each byte is one.

ghost use Rattle.std.specs.Prelude.{◌≡◌};

use crate::link::Link;
use crate::outgoing::Throttle;
use crate::sizes::Sizes;
use crate::terminal::Terminal;
use std::alloc::Global;
use std::io;
use std::io::Read;
use std::sync::{Arc, Wait};

/// The source of keys: their reader, the throttle that holds them back, the connection that they
/// are for, and the window in which they are typed.
#[derive(Drop)]
pub struct Typing<H, K> {
    pub keys: K,
    pub throttle: Throttle<H>,
    pub link: Arc<Link, Global>,
    /// The host and the port that the user asked for, as the state of the session is shown by them.
    pub host: String,
    pub port: u16,
    /// The size of the window, in characters and lines.
    pub width: u16,
    pub height: u16,
    pub sizes: Sizes,
    /// The terminal at which they are typed, if they are.
    pub terminal: Option<Terminal>,
}

/// The bytes of a reader as keys, which are read only while few of those before them wait to be sent.
#[derive(Drop)]
pub struct Keys<H, K> {
    typing: Typing<H, K>,
}

impl<H, K> Keys<H, K> {
    /// Makes the keys of this source.
    pub fn new(typing: Typing<H, K>) -> Keys<H, K>
        ensures { result.typing ≡ typing }
    {
        Keys { typing }
    }
}

impl<H: Wait, K: Read> Read for Keys<H, K> {
    ghost remaining = { λ k. K.remaining k.typing.keys };

    fn read(&mut self, buf: &mut [u8]) -> io::Result<usize> {
        self.typing.throttle.wait();
        self.typing.keys.read(buf)
    }
}
