//! Keys and streams, with the lines that they print.

use super::worlds::whole;
use crate::models::page;
use std::alloc::Global;
use std::process::Abort;
use tn_cli::{CliFault, run_local, run_replay};

// Returns the bytes of a word, all of them even if one allocation is refused.
pub(super) fn bytes_of(alloc: Global, word: &str) -> Vec<u8> {
    let one = page::bytes_of(alloc, word);
    let other = page::bytes_of(alloc, word);
    if one.len() < other.len() { other } else { one }
}

// Want of memory is an ordinary answer; any other is compared.
fn prints(
    rt: &impl Abort,
    alloc: Global,
    printed: &[u8],
    ended: Result<(), CliFault>,
    wanted: &str,
) {
    let Ok(text) = whole(alloc, wanted) else {
        return;
    };
    if ended != Err(CliFault::Memory) {
        assert!(rt; ended.is_ok() && printed == text.as_slice(), "not {wanted}");
    }
}

fn local(rt: &impl Abort, alloc: Global, keys: &str, wanted: &str) {
    let mut output = Vec::new(alloc);
    let keys = bytes_of(alloc, keys);
    let ended = run_local(alloc, &mut keys.as_slice(), &mut output);
    prints(rt, alloc, &output, ended, wanted);
}

fn replay(rt: &impl Abort, alloc: Global, stream: &str, wanted: &str) {
    let mut output = Vec::new(alloc);
    let stream = bytes_of(alloc, stream);
    let ended = run_replay(alloc, &mut stream.as_slice(), &mut output);
    prints(rt, alloc, &output, ended, wanted);
}

const KEYS: &[(&str, &str)] = &[
    ("", ""),
    ("61627f630d", "text 61630a\n"),
    ("7f1504", "eof\n"),
    ("610404", "text 61\neof\n"),
    ("6103620a", "signal int\ntext 61620a\n"),
    ("1c1a", "signal quit\nsignal tstp\n"),
    ("610d7f620d", "text 610a\ntext 620a\n"),
    ("6162", ""),
    // A full line drops, and still erases.
    ("254x61.627f0a", "text |253*61|0a\n"),
];

#[test]
fn keys_become_entries(rt: HostRuntime) {
    for (keys, wanted) in KEYS {
        local(&rt, rt.alloc(), keys, wanted);
    }
}

const STREAMS: &[(&str, &str)] = &[
    ("ffff0d00", "text ff0a\n"),
    ("610d", ""),
    ("610dfffb01620a", "text 610a\ntext 620a\n"),
    ("0d0d00", "text 0a\ntext 0a\n"),
    ("fff0ff4142fffafff00a", "text 420a\n"),
    ("fff6fffa2201fffb63610a", "text 610a\n"),
    ("fffa63.600x41.fff0610d00", "text 610a\n"),
];

#[test]
fn a_stream_becomes_entries(rt: HostRuntime) {
    for (stream, wanted) in STREAMS {
        replay(&rt, rt.alloc(), stream, wanted);
    }
}
