//! The sizes of the window, as the launcher, which set the terminal, sends them.

ghost use Rattle.std.specs.{Prelude.{◌≡◌, IfOk, IfSome, List, Some, ℕ}, Io.KnownBytes.Consumes};
ghost use Rattle.tn_net.specs.Sizes.{IsTold, number_of, with_digit};

use libc::net::{POLLIN, poll};
use libc::types::pollfd;
use std::fs::File;
use std::io;
use std::io::{ErrorKind, Read};
use std::os::fd::AsRawFd;
use tn_cores::streams::WindowSize;

/// The number of bytes of a line.
const LINE: usize = 12;

/// The number of bytes that are read at once: 21 lines, so that no line is cut.
const LINES: usize = 252;

/// The descriptor that `poll` passes over (POSIX).
const NO_DESCRIPTOR: i32 = -1;

/// A pipe that brings each new size: width and height, five characters each, a space between them
/// and a line feed after them. If there is no pipe, no sizes come.
#[derive(Drop)]
pub struct Sizes {
    pipe: Option<File>,
}

impl Sizes {
    /// Makes the sizes that this pipe brings.
    pub fn new(pipe: Option<File>) -> Sizes
        ensures { result.pipe ≡ pipe }
    {
        Sizes { pipe }
    }

    /// Returns the descriptor to wait at.
    pub(crate) fn descriptor(&self) -> i32 {
        match &self.pipe {
            Some(pipe) => pipe.as_raw_fd(),
            None => NO_DESCRIPTOR,
        }
    }

    /// Returns the last of the sizes that came since the last look, if there is one.
    pub(crate) fn look(&mut self) -> Option<WindowSize> {
        let mut waited = [pollfd {
            fd: self.descriptor(),
            events: POLLIN,
            revents: 0,
        }];
        if poll(&mut waited, 0) <= 0 {
            return None;
        }
        self.read()
    }

    /// Returns the last of the sizes that came since the last look, which is waited for. A pipe
    /// that has ended is looked at no more.
    pub(crate) fn read(&mut self) -> Option<WindowSize> {
        match last_told(self.pipe.as_mut()?) {
            Ok(size) => size,
            Err(_) => {
                self.pipe = None;
                None
            },
        }
    }
}

// Returns the size in the last line that this pipe gives, if that is one.
fn last_told<P: Read>(pipe: &mut P) -> io::Result<Option<WindowSize>>
    ensures { IfOk result (λ told. IfSome told (λ size. (lines : List ℕ)
        × Consumes (P.remaining pipe.old) (P.remaining pipe.new) lines × IsTold size lines)) }
{
    let mut lines = [0; LINES];
    let count = pipe.read(&mut lines)?;
    if count == 0 {
        return Err(io::Error::from(ErrorKind::UnexpectedEof));
    }
    Ok(size_of(&lines[..count]))
}

// Returns the size in the last of these lines.
fn size_of(lines: &[u8]) -> Option<WindowSize>
    ensures { IfSome result (λ size. IsTold size lines.now) }
{
    let start = lines.len().checked_sub(LINE)?;
    let line = &lines[start..];
    let width = read_number(&line[..5])?;
    let height = read_number(&line[6..11])?;
    Some(WindowSize { width, height })
}

// Returns the number that these characters are: digits, and spaces before or after them.
fn read_number(characters: &[u8]) -> Option<u16>
    ensures { IfSome result (λ number. number_of characters.now ≡ Some number) }
{
    let mut number = 0;
    for character in characters {
        number = add_digit(number, *character)?;
    }
    Some(number)
}

fn add_digit(number: u16, character: u8) -> Option<u16>
    ensures { IfSome result (λ more. with_digit number character ≡ Some more) }
{
    match character {
        b' ' => Some(number),
        b'0'..=b'9' => number
            .checked_mul(10)?
            .checked_add(u16::from(character - b'0')),
        _ => None,
    }
}
