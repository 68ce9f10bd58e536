//! Finds the end of a run of plain bytes.

ghost use Rattle.std.specs.Prelude.{◌≡◌, ◌≤◌, ◌<◌, ◌↔◌, length, take, drop, All, IsTrue, IfSome, slice_index};
ghost use Rattle.tn_nvt.specs.{Sinks.{IsPlain, EndsRun}, Runs.HasRun};

use crate::bytes::CR;
use memchr::memchr2;
use tn_codes::IAC;

// The number of bytes of a run that are looked at one by one, which is faster than a search if a
// run is short.
const NEAR: usize = 4;

#[inline(always)]
pub(crate) fn is_plain(byte: u8) -> bool
    ensures { IsTrue result ↔ IsPlain byte }
{
    byte != CR && byte != IAC
}

/// Returns the length of the run that begins with the first byte.
#[inline(always)]
pub(crate) fn run_len(bytes: &[u8]) -> usize
    requires some { 0 < length bytes.now }
    requires plain { IsPlain (slice_index bytes.now 0) }
    ensures { HasRun bytes.now result }
{
    match near_len(bytes) {
        Some(count) => count,
        None => far_len(bytes),
    }
}

// Returns the length of the run if it ends at one of the first `NEAR` bytes and there are as many,
// so that none is counted.
#[inline(always)]
fn near_len(bytes: &[u8]) -> Option<usize>
    requires some { 0 < length bytes.now }
    requires plain { IsPlain (slice_index bytes.now 0) }
    ensures { IfSome result (λ count. HasRun bytes.now count) }
{
    if bytes.len() < NEAR {
        return None;
    }
    let mut at = 1;
    while at < NEAR {
        if !is_plain(bytes[at]) {
            return Some(at);
        }
        at += 1;
    }
    None
}

// Returns the length of the run, wherever it ends.
#[inline(never)]
fn far_len(bytes: &[u8]) -> usize
    requires some { 0 < length bytes.now }
    requires plain { IsPlain (slice_index bytes.now 0) }
    ensures { HasRun bytes.now result }
{
    plain_len(bytes)
}

// Returns the number of leading bytes that are plain.
fn plain_len(bytes: &[u8]) -> usize
    ensures within { result ≤ length bytes.now }
    ensures plain { All IsPlain (take result bytes.now) }
    ensures ends { EndsRun (drop result bytes.now) }
{
    match memchr2(CR, IAC, bytes) {
        Some(count) => count,
        None => bytes.len(),
    }
}
