//! Bytes that wait to be sent.

ghost use Rattle.std.specs.Prelude.{◌≡◌, ◌≤◌, [], drop, length};

use std::alloc::Global;
use std::marker::Model;
use std::mem;

/// Bytes that wait to be sent to a service, which may take some at a time.
#[derive(Drop)]
pub(crate) struct Waiting {
    bytes: Vec<u8>,
    sent: usize,
}

impl Model for Waiting {
    ghost use Rattle.std.specs.Prelude.{List, ℕ, ◌≤◌, drop, vec_len};

    ghost Value = { List ℕ };

    ghost view = { λ w. drop w.sent w.bytes.items };

    ghost invariant = { λ w. w.sent ≤ vec_len w.bytes };
}

impl Waiting {
    /// Makes an empty queue.
    pub(crate) fn new(alloc: Global) -> Waiting
        ensures { result ≡ [] }
    {
        Waiting {
            bytes: Vec::new(alloc),
            sent: 0,
        }
    }

    pub(crate) fn as_slice(&self) -> &[u8]
        ensures { result.now ≡ self.now }
    {
        &self.bytes[self.sent..]
    }

    /// Removes the first bytes, which were sent.
    pub(crate) fn take(&mut self, count: usize)
        requires { count ≤ length self.old }
        ensures { self.new ≡ drop count self.old }
    {
        self.sent += count;
    }

    /// Puts these bytes into the queue, in place of others.
    pub(crate) fn refill(&mut self, bytes: &mut Vec<u8>)
        ensures { self.new ≡ bytes.old.items }
    {
        mem::swap(&mut self.bytes, bytes);
        self.sent = 0;
    }
}
