//! A bell, which wakes the thread that waits.

use libc::net as c;
use libc::types::pollfd;
use os::FromRawFd;
use std::os::fd::{AsRawFd, OwnedFd, RawFd};

/// A bell. If the system can give none, it wakes no thread.
#[derive(Drop)]
pub(crate) struct Bell {
    counter: Option<OwnedFd>,
}

impl Bell {
    /// Makes a bell that was not rung.
    pub(crate) fn new() -> Bell {
        let counter = c::eventfd(0, c::EFD_CLOEXEC | c::EFD_NONBLOCK);
        if counter < 0 {
            return Bell { counter: None };
        }
        // The descriptor is new, and no other owner has its number.
        let counter = unsafe { OwnedFd::from_raw_fd(counter) };
        Bell {
            counter: Some(counter),
        }
    }

    /// Wakes the thread that waits. From then on none waits.
    pub(crate) fn ring(&self) {
        if let Some(counter) = &self.counter {
            let _ = libc::write(counter.as_raw_fd(), &1u64.to_ne_bytes());
        }
    }

    /// Returns the descriptor that can be read once the bell was rung; -1, which `poll` passes
    /// over, if there is no bell.
    pub(crate) fn descriptor(&self) -> RawFd {
        match &self.counter {
            Some(counter) => counter.as_raw_fd(),
            None => -1,
        }
    }

    /// Waits until the bell is rung, for at most this number of milliseconds. It returns false, at
    /// once, if there is no bell.
    pub(crate) fn wait_for_ring(&self, milliseconds: u16) -> bool {
        let Some(counter) = &self.counter else {
            return false;
        };
        let mut ready = [awaited(counter.as_raw_fd())];
        c::poll(&mut ready, i32::from(milliseconds));
        true
    }

    /// Waits until something can be read from a descriptor, or the bell is rung, for at most this
    /// number of milliseconds. It returns false if nothing can be read; without a bell the read
    /// itself finds that out.
    pub(crate) fn wait(&self, fd: RawFd, milliseconds: u16) -> bool {
        let Some(counter) = &self.counter else {
            return true;
        };
        let mut ready = [awaited(fd), awaited(counter.as_raw_fd())];
        let count = c::poll(&mut ready, i32::from(milliseconds));
        count < 0 || ready[0].revents != 0
    }
}

/// Returns whether the peer of a connection has ended its stream, or is gone. The bytes that it
/// sent before may still wait.
pub(crate) fn has_peer_ended(fd: RawFd) -> bool {
    let mut seen = [pollfd {
        fd,
        events: c::POLLRDHUP,
        revents: 0,
    }];
    c::poll(&mut seen, 0) > 0
}

/// Returns whether a connection is broken, as by a reset, or closed in both directions.
pub(crate) fn is_broken(fd: RawFd) -> bool {
    let mut seen = [pollfd {
        fd,
        events: 0,
        revents: 0,
    }];
    c::poll(&mut seen, 0) > 0
}

fn awaited(fd: RawFd) -> pollfd {
    pollfd {
        fd,
        events: c::POLLIN,
        revents: 0,
    }
}
