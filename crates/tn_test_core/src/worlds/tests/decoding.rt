//! Runs of `tn decode`, over readers and writers that take all, cut, or fail.

use super::keys::bytes_of;
use super::programs::{Broken, Narrow};
use std::alloc::Global;
use std::io::{self, Read, Write};
use std::process::Abort;
use tn_cli::{CliFault, Dropped, Left, Unprinted, run_decode};

const STREAM: &[u8] = b"ls\r\n\xff\xfb\x22\xff";

const LINES: &[u8] = b"data \"ls\"\nnewline\nIAC WILL LINEMODE\n";

/// Gives one byte of these at a time.
#[derive(Drop)]
struct Slow {
    bytes: &'static [u8],
}

impl Read for Slow {
    fn read(&mut self, buf: &mut [u8]) -> io::Result<usize> {
        let count = self.bytes.len().min(buf.len()).min(1);
        let (front, back) = self.bytes.split_at(count);
        buf[..count].copy_from_slice(front);
        self.bytes = back;
        Ok(count)
    }
}

/// Streams, what is printed of them, how many escapes and subnegotiations are dropped, and what is left.
const STREAMS: &[(&[u8], &[u8], u64, u64, Left)] = &[
    (b"", b"", 0, 0, Left::Nothing),
    (b"a\r", b"data \"a\"\n", 0, 0, Left::Cr),
    (STREAM, LINES, 0, 0, Left::Iac),
    (
        b"\xff\xfbx\xff\xfb",
        b"IAC WILL 120\n",
        0,
        0,
        Left::OptionWord,
    ),
    (b"\xff\xfa\x22\x01", b"", 0, 0, Left::Subnegotiation),
    (b"\xff\xfa\x22\x01\xff", b"", 0, 0, Left::Subnegotiation),
    (b"\xff\x01a\xff\xf0", b"data \"a\"\n", 2, 0, Left::Nothing),
    (b"\xff\xfa\xff\xf0", b"", 0, 1, Left::Nothing),
    (
        b"\xff\xfa\x22\x01\xff\xf1",
        b"IAC NOP\n",
        0,
        1,
        Left::Nothing,
    ),
    (b"\xff\xfa\x22\xff\x01", b"", 1, 1, Left::Nothing),
];

fn prints<R: Read>(
    rt: &impl Abort,
    alloc: Global,
    reader: &mut R,
    lines: &[u8],
    unprinted: Unprinted,
) {
    let mut output = Vec::new(alloc);
    match run_decode(alloc, reader, &mut output) {
        Ok(left) => assert!(rt; output.as_slice() == lines && left == unprinted),
        Err(fault) => assert!(rt; fault == CliFault::Memory || fault == CliFault::Write),
    }
}

#[test]
fn a_stream_is_decoded_however_it_comes(rt: HostRuntime) {
    let alloc = rt.alloc();
    for (stream, lines, escapes, subnegotiations, left) in STREAMS {
        let dropped = Dropped {
            escapes: *escapes,
            subnegotiations: *subnegotiations,
        };
        let unprinted = Unprinted {
            dropped,
            left: *left,
        };
        let mut whole = *stream;
        prints(&rt, alloc, &mut whole, lines, unprinted);
        prints(&rt, alloc, &mut Slow { bytes: stream }, lines, unprinted);
    }
}

/// Streams in hexadecimal, and what is printed of them: each form of an item once.
const FORMS: &[(&str, &str)] = &[
    (
        "6c730d0afffb22fffa220103fff0fff46122ffff",
        "data \"ls\"\n\
            newline\n\
            IAC WILL LINEMODE\n\
            IAC SB LINEMODE MODE EDIT TRAPSIG\n\
            IAC IP\n\
            data \"a\\\"\\xff\"\n",
    ),
    ("", ""),
    ("ff", ""),
    ("615c0d000a7f7e", "data \"a\\\\\\x0d\\x0a\\x7f~\"\n"),
    (
        "64x61.",
        "data \"aaaaaaaaaaaaaaaaaaaaaaaaaaaaaaaaaaaaaaaaaaaaaaaaaaaaaaaaaaaaaaaa\"\n",
    ),
    (
        "65x61.",
        "data \"aaaaaaaaaaaaaaaaaaaaaaaaaaaaaaaaaaaaaaaaaaaaaaaaaaaaaaaaaaaaaaaa\"\n\
            data \"a\"\n",
    ),
    (
        "64x61.0d0a62",
        "data \"aaaaaaaaaaaaaaaaaaaaaaaaaaaaaaaaaaaaaaaaaaaaaaaaaaaaaaaaaaaaaaaa\"\n\
            newline\n\
            data \"b\"\n",
    ),
    (
        "ffecffedffeeffef",
        "IAC EOF\nIAC SUSP\nIAC ABORT\nIAC EOR\n",
    ),
    (
        "fff1fff2fff3fff4fff5",
        "IAC NOP\nIAC DM\nIAC BRK\nIAC IP\nIAC AO\n",
    ),
    ("fff6fff7fff8fff9", "IAC AYT\nIAC EC\nIAC EL\nIAC GA\n"),
    (
        "fffb01fffc03fffd05fffe06",
        "IAC WILL ECHO\n\
            IAC WONT SUPPRESS-GO-AHEAD\n\
            IAC DO STATUS\n\
            IAC DONT TIMING-MARK\n",
    ),
    (
        "fffb00fffb18fffb19fffb1f",
        "IAC WILL BINARY\n\
            IAC WILL TERMINAL-TYPE\n\
            IAC WILL END-OF-RECORD\n\
            IAC WILL NAWS\n",
    ),
    (
        "fffb20fffb21fffb23fffb24",
        "IAC WILL TERMINAL-SPEED\n\
            IAC WILL TOGGLE-FLOW-CONTROL\n\
            IAC WILL X-DISPLAY-LOCATION\n\
            IAC WILL ENVIRON\n",
    ),
    (
        "fffb25fffb26fffb27fffb63fffbff",
        "IAC WILL AUTHENTICATION\n\
            IAC WILL ENCRYPT\n\
            IAC WILL NEW-ENVIRON\n\
            IAC WILL 99\n\
            IAC WILL 255\n",
    ),
    ("fffa1f00500018fff0", "IAC SB NAWS 80 24\n"),
    ("fffa1f0050ff00fff0fffa1f005000fff0", "IAC SB NAWS 005000\n"),
    ("fffa1ffffffffffffffffffff0", "IAC SB NAWS 65535 65535\n"),
    (
        "fffa220100fff0fffa220107fff0",
        "IAC SB LINEMODE MODE 0\n\
            IAC SB LINEMODE MODE EDIT TRAPSIG MODE_ACK\n",
    ),
    (
        "fffa220118fff0fffa2201c9fff0",
        "IAC SB LINEMODE MODE SOFT_TAB LIT_ECHO\n\
            IAC SB LINEMODE MODE EDIT SOFT_TAB c0\n",
    ),
    (
        "fffa22fd02fff0fffa22fd02000000000008000040fff0",
        "IAC SB LINEMODE DO FORWARDMASK\n\
            IAC SB LINEMODE DO FORWARDMASK 2c 41\n",
    ),
    (
        "fffa22fe02fff0fffa22fb02fff0fffa22fc02fff0",
        "IAC SB LINEMODE DONT FORWARDMASK\n\
            IAC SB LINEMODE WILL FORWARDMASK\n\
            IAC SB LINEMODE WONT FORWARDMASK\n",
    ),
    (
        "fffa22fd0280.31x00.fff0",
        "IAC SB LINEMODE DO FORWARDMASK 00\n",
    ),
    (
        "fffa2203fff0fffa22030a8208fff0",
        "IAC SB LINEMODE SLC\n\
            IAC SB LINEMODE SLC EC VALUE|ACK 08\n",
    ),
    (
        "fffa22030a82080b0215fff0",
        "IAC SB LINEMODE SLC EC VALUE|ACK 08, EL VALUE 15\n",
    ),
    (
        "fffa220301e0ffff1f21001e4301fff0",
        "IAC SB LINEMODE SLC SYNCH NOSUPPORT|ACK|FLUSHIN|FLUSHOUT ff, \
            31 CANTCHANGE|FLUSHOUT 00, EEOL DEFAULT|FLUSHIN 01\n",
    ),
    (
        "fffa22030a82fff0fffa22fff0fffa2205fff0",
        "IAC SB LINEMODE 030a82\n\
            IAC SB LINEMODE\n\
            IAC SB LINEMODE 05\n",
    ),
    (
        "fffa1801fff0fffa63fff0fffa6300fffffff0",
        "IAC SB TERMINAL-TYPE 01\n\
            IAC SB 99\n\
            IAC SB 99 00ff\n",
    ),
];

fn is_printed(rt: &impl Abort, alloc: Global, mut stream: &[u8], lines: &[u8]) {
    let mut output = Vec::new(alloc);
    match run_decode(alloc, &mut stream, &mut output) {
        Ok(_) => assert!(rt; output.as_slice() == lines),
        Err(fault) => assert!(rt; fault == CliFault::Memory || fault == CliFault::Write),
    }
}

#[test]
fn each_form_has_its_line(rt: HostRuntime) {
    let alloc = rt.alloc();
    for &(stream, lines) in FORMS {
        is_printed(&rt, alloc, &bytes_of(alloc, stream), lines.as_bytes());
    }
}

/// A reader that gives this number of zeros more.
#[derive(Drop)]
struct Zeros(usize);

impl Read for Zeros {
    fn read(&mut self, buf: &mut [u8]) -> io::Result<usize> {
        let count = self.0.min(buf.len());
        buf[..count].fill(0);
        self.0 -= count;
        Ok(count)
    }
}

/// Counts what is written.
#[derive(Drop)]
struct Counter(usize);

impl Write for Counter {
    fn write(&mut self, buf: &[u8]) -> io::Result<usize> {
        self.0 = self.0.saturating_add(buf.len());
        Ok(buf.len())
    }

    fn flush(&mut self) -> io::Result<()> {
        Ok(())
    }
}

/// A line of 64 zeros: `data` in quotes, four characters each, and the line feed.
const ZEROS_LINE: usize = 64 * 4 + 8;

#[test]
fn a_stream_of_more_than_a_mebibyte_is_decoded(rt: HostRuntime) {
    let lines = 20_000;
    let mut counter = Counter(0);
    let ended = run_decode(rt.alloc(), &mut Zeros(lines * 64), &mut counter);
    if ended.is_ok() {
        assert!(rt; counter.0 == lines * ZEROS_LINE);
    } else {
        assert!(rt; ended == Err(CliFault::Memory));
    }
}

#[test]
fn what_came_before_a_failed_read_is_printed(rt: HostRuntime) {
    let mut reader = Broken::new();
    let mut output = Vec::new(rt.alloc());
    let ended = run_decode(rt.alloc(), &mut reader, &mut output);
    if ended == Err(CliFault::Read) {
        assert!(rt; output.as_slice() == b"data \"\\x0a\"\n".as_slice());
        assert!(rt; reader.tally.failed() == 1);
    } else {
        assert!(rt; ended == Err(CliFault::Memory) || ended == Err(CliFault::Write));
    }
}

#[test]
fn a_decode_that_can_write_no_more_has_written_the_first_bytes(rt: HostRuntime) {
    let alloc = rt.alloc();
    for room in [0, 4, 9] {
        let mut reader = STREAM;
        let mut writer = Narrow::new(alloc, room, true);
        let ended = run_decode(alloc, &mut reader, &mut writer);
        assert!(rt; ended == Err(CliFault::Write) || ended == Err(CliFault::Memory));
        assert!(rt; LINES.starts_with(&writer.taken));
    }
}
