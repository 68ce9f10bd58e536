//! The causes of a failed connection, as lines for its user. Out of memory a line is dropped, and a
//! line that has a value in it may be truncated.

use std::io::Write;
use tn_net::Link;

/// Notes this line.
pub(crate) fn note(causes: &mut Vec<u8>, line: &[u8]) {
    let _ = causes.extend_from_slice(line);
}

/// Notes whether the file that gets what the screen gets lacks something.
pub(crate) fn note_log(causes: &mut Vec<u8>, link: &Link) {
    if !link.is_log_whole() {
        note(causes, b"tn: the log is not whole\n");
    }
}

/// Notes how many of the bytes that were typed were not sent, after the reason.
pub(crate) fn note_unsent(causes: &mut Vec<u8>, why: &str, unsent: usize) {
    let what = if unsent == 1 {
        "byte typed was"
    } else {
        "bytes typed were"
    };
    let _ = writeln!(causes, "tn: {}{} {} not sent", why, unsent, what);
}
