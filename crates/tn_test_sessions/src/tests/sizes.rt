//! A client's window that gets other sizes while keys are typed, and commands that are sent between them.

ghost use Rattle.std.specs.Prelude.{None};

use super::gates::wait;
use super::runs::join;
use super::sessions::ended;
use std::alloc::Global;
use std::io::{self, Read};
use std::process::Abort;
use std::sync::atomic::{AtomicBool, Ordering};
use std::sync::{Arc, Wait};
use std::test::Fail;
use std::thread::Threads;
use tn_cores::streams::{Control, Source, WindowSize, nothing_to_say};
use tn_session::{Ended, Gate, Place};

/// The flags that the two readers of a client set for each other.
#[derive(Drop)]
struct Meeting {
    asked: AtomicBool,
    typed: AtomicBool,
    stuck: AtomicBool,
}

/// A network that asks for the window's size, and ends once all keys were typed.
#[derive(Drop)]
struct Asking {
    meeting: Arc<Meeting, Global>,
    asked: bool,
}

impl Read for Asking {
    fn read(&mut self, buf: &mut [u8]) -> io::Result<usize> {
        if self.asked {
            wait(&self.meeting.typed, &self.meeting.stuck);
            return Ok(0);
        }
        self.asked = true;
        match buf.get_mut(..3) {
            Some(front) => {
                front.copy_from_slice(&[255, 253, 31]);
                Ok(3)
            },
            None => Ok(0),
        }
    }
}

/// A gate that sets a flag once the network's piece was sent on.
#[derive(Drop)]
struct Telling {
    meeting: Arc<Meeting, Global>,
}

impl Gate for Telling {
    fn at(&self, place: Place) {
        if place == Place::NetPiece {
            self.meeting.asked.store(true, Ordering::SeqCst);
        }
    }
}

/// A reader that reports one size before each of its first keys, once the server has asked for it,
/// and a request before each.
#[derive(Drop)]
struct Window {
    meeting: Arc<Meeting, Global>,
    sizes: &'static [WindowSize],
    controls: &'static [Option<Control>],
    keys: &'static [u8],
}

impl Source for Window {
    ghost sizes = { λ _. None };

    ghost controls = { λ _. None };

    fn resized(&mut self) -> Option<WindowSize> {
        wait(&self.meeting.asked, &self.meeting.stuck);
        let (first, rest) = self.sizes.split_first()?;
        self.sizes = rest;
        Some(*first)
    }

    fn control(&mut self) -> Option<Control> {
        let (first, rest) = self.controls.split_first()?;
        self.controls = rest;
        *first
    }

    fn last_words(&self) -> &'static [u8] {
        nothing_to_say()
    }

    fn read_some(&mut self, buf: &mut [u8]) -> io::Result<usize> {
        let Some(slot) = buf.first_mut() else {
            return Ok(0);
        };
        let Some((key, rest)) = self.keys.split_first() else {
            self.meeting.typed.store(true, Ordering::SeqCst);
            return Ok(0);
        };
        *slot = *key;
        self.keys = rest;
        Ok(1)
    }
}

/// Another size than at first, the same once more, and one whose sides are open.
const SIZES: &[WindowSize] = &[
    WindowSize {
        width: 100,
        height: 40,
    },
    WindowSize {
        width: 100,
        height: 40,
    },
    WindowSize {
        width: 0,
        height: 0,
    },
];

/// Before the second key, the third, and the end of the keys.
const CONTROLS: &[Option<Control>] = &[
    None,
    Some(Control::Brk),
    Some(Control::Ip),
    None,
    Some(Control::Ayt),
];

/// WILL NAWS and the size at first; then each size that is another than before, and each command, in its
/// place among the keys.
const SENT: &[u8] = b"\xff\xfb\x1f\xff\xfa\x1f\x00\x50\x00\x18\xff\xf0\
    \xff\xfa\x1f\x00\x64\x00\x28\xff\xf0a\xff\xf3b\
    \xff\xfa\x1f\x00\x00\x00\x00\xff\xf0\xff\xf4cd\xff\xf6";

fn types<R: Abort + Threads + Wait + Copy + Send + 'static>(
    rt: R,
    alloc: Global,
    meeting: &Arc<Meeting, Global>,
) -> Result<(), Fail> {
    let net = Asking {
        meeting: Arc::try_clone(meeting)?,
        asked: false,
    };
    let keys = Window {
        meeting: Arc::try_clone(meeting)?,
        sizes: SIZES,
        controls: CONTROLS,
        keys: b"abcd",
    };
    let telling = Telling {
        meeting: Arc::try_clone(meeting)?,
    };
    let mut out = Vec::new(alloc);
    let mut screen = Vec::new(alloc);
    let report = join(rt, alloc, net, keys, &mut out, &mut screen, telling)?;
    assert!(rt; report == ended(Ended::HangUp, 5, 0, 0));
    assert!(rt; out.as_slice() == SENT);
    Ok(())
}

#[test]
fn a_client_session_tells_sizes_and_commands_between_keys(rt: HostRuntime) -> Result<(), Fail> {
    let meeting = Meeting {
        asked: AtomicBool::new(false),
        typed: AtomicBool::new(false),
        stuck: AtomicBool::new(false),
    };
    let meeting = Arc::new(rt.alloc(), meeting)?;
    types(rt, rt.alloc(), &meeting)?;
    assert!(rt; !meeting.stuck.load(Ordering::SeqCst));
    Ok(())
}
