//! The program as a whole: the line for a fault, and the status.

use std::alloc::{AllocError, Global};
use std::fs::{File, Files};
use std::io::{self, Cursor, ErrorKind, Read, Write};
use std::sync::Arc;
use tn_program::{
    EditorSettings, KeySource, Link, Lookout, Network, OwnCharacters, Replacing, Streams,
    own_characters, run_words,
};
use tn_serve::Host;

/// Takes all that is written, or fails.
#[derive(Drop)]
struct Paper {
    open: bool,
}

impl Write for Paper {
    fn write(&mut self, buf: &[u8]) -> io::Result<usize> {
        if self.open {
            Ok(buf.len())
        } else {
            Err(io::Error::from(ErrorKind::BrokenPipe))
        }
    }

    fn flush(&mut self) -> io::Result<()> {
        Ok(())
    }
}

fn words_of(alloc: Global, word: &str) -> Result<Vec<String>, AllocError> {
    let mut words = Vec::new(alloc);
    words.push(String::from_str(alloc, "tn")?)?;
    words.push(String::from_str(alloc, word)?)?;
    Ok(words)
}

// Returns how a run of this subcommand ends, and its lines on standard error; `None` if there is no
// memory for its arguments.
fn run<H, R, W>(
    rt: H,
    alloc: Global,
    word: &str,
    reader: R,
    writer: &mut W,
) -> Option<(u8, Vec<u8>)>
where
    H: Network + Host + Lookout + Replacing + Eprint + Files<File = File>,
    R: Read + Drop + Send + 'static,
    W: Write,
{
    let words = words_of(alloc, word).ok()?;
    let streams = Streams {
        origin: KeySource::Reader,
        reader,
        sizes: None,
        stands: None,
        terminal: None,
        editor: EditorSettings::usual(),
        is_journal: false,
        link: Arc::new(alloc, Link::new()).ok()?,
    };
    let mut errors = Vec::new(alloc);
    let ended = run_words(rt, alloc, Ok(words), streams, writer, &mut errors);
    Some((ended, errors))
}

// Returns whether a run ended with this status and wrote this, as far as there was memory, or else
// that there was none.
fn is_told(ended: u8, errors: &[u8], status: u8, told: &[u8]) -> bool {
    if errors == b"tn: memory\n".as_slice() {
        return ended == 1;
    }
    ended == status && told.starts_with(errors)
}

/// The lines about an argument that is no subcommand.
const UNKNOWN: &[u8] = b"tn: usage\nerror: unrecognized subcommand 'frobnicate'\n\n\
    Usage: tn <COMMAND>\n\nFor more information, try '--help'.\n";

/// An argument, whether its output can be written, the lines on standard error, and the status.
const WORDS: &[(&str, bool, &[u8], u8)] = &[
    ("frobnicate", true, UNKNOWN, 2),
    ("local", true, b"", 0),
    ("local", false, b"tn: write\n", 1),
    ("--help", false, b"tn: write\n", 1),
    ("--version", false, b"tn: write\n", 1),
    ("--version", true, b"", 0),
];

#[test]
fn faults_are_told(rt: HostRuntime) {
    for (word, open, told, status) in WORDS {
        let mut writer = Paper { open: *open };
        let Some((ended, errors)) = run(rt, rt.alloc(), word, Cursor::new(*b"a\n"), &mut writer)
        else {
            return;
        };
        assert!(rt; is_told(ended, &errors, *status, told));
    }
}

/// A script, the lines about it, and the status.
const SCRIPTS: &[(&[u8], &[u8], u8)] = &[
    (b"mark\nbogus\n", b"tn: line 2: bad command\n", 2),
    (b"\nset el 7f\n", b"tn: line 2: refused\n", 3),
    (b"mark\n", b"", 0),
];

#[test]
fn the_line_of_a_fault_is_told(rt: HostRuntime) {
    for (script, told, status) in SCRIPTS {
        let mut output = Vec::new(rt.alloc());
        let Some((ended, errors)) = run(rt, rt.alloc(), "world", *script, &mut output) else {
            return;
        };
        assert!(rt; is_told(ended, &errors, *status, told));
    }
}

/// A stream, and the lines about the parts of it that are not printed.
const STREAMS: &[(&[u8], &[u8])] = &[
    (b"a\r\n", b""),
    (b"a\r", b"tn: left unread: a CR\n"),
    (b"a\xff", b"tn: left unread: an IAC\n"),
    (b"\xff\xfb", b"tn: left unread: an option word\n"),
    (b"\xff\xfa\x22", b"tn: left unread: a subnegotiation\n"),
    (
        b"\xff\x01\xff\xfa\x22\xff\x01\r",
        b"tn: dropped escapes: 2\ntn: dropped subnegotiations: 1\ntn: left unread: a CR\n",
    ),
];

// Out of memory for the lines, this is written, and the status stays 0.
fn is_unread_told(ended: u8, errors: &[u8], told: &[u8]) -> bool {
    if ended == 0 && errors == b"tn: memory\n".as_slice() {
        return !told.is_empty();
    }
    is_told(ended, errors, 0, told)
}

#[test]
fn what_of_a_stream_is_not_printed_is_told(rt: HostRuntime) {
    for (stream, told) in STREAMS {
        let mut output = Vec::new(rt.alloc());
        let Some((ended, errors)) = run(rt, rt.alloc(), "decode", *stream, &mut output) else {
            return;
        };
        assert!(rt; is_unread_told(ended, &errors, told));
    }
}

#[test]
fn the_characters_of_a_terminal_are_read(rt: HostRuntime) {
    let own = OwnCharacters {
        intr: Some(3),
        quit: None,
        susp: Some(26),
        erase: Some(8),
        kill: Some(255),
        eof: None,
    };
    assert!(rt; own_characters(b"03001a08ff00") == Some(own));
    for text in [
        b"".as_slice(),
        b"03001a08ff",
        b"03001a08ff0000",
        b"03001a08fg00",
    ] {
        assert!(rt; own_characters(text).is_none());
    }
}
