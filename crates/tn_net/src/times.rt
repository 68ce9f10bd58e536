//! The time that a line of notes or of a log begins with.

use httpdate::HttpDate;
use std::alloc::{AllocError, Global};
use std::time::{Clock, Duration, SystemTime};

/// The time and a space: in UTC, to the millisecond, as `2026-11-26T20:11:07.123Z`. It is empty if the
/// machine has no clock.
pub fn stamp<C: Clock>(clock: &C, alloc: Global) -> Result<Vec<u8>, AllocError> {
    let Ok(now) = SystemTime::now(clock) else {
        return Ok(Vec::new(alloc));
    };
    match now.duration_since(SystemTime::UNIX_EPOCH) {
        Ok(since) => since_1970(alloc, since),
        Err(_) => Ok(Vec::new(alloc)),
    }
}

// The text of a time since 1970.
fn since_1970(alloc: Global, since: Duration) -> Result<Vec<u8>, AllocError> {
    match HttpDate::from_unix_secs(since.as_secs()) {
        Ok(date) => time_text(alloc, &date, since.subsec_millis()),
        Err(_) => Ok(Vec::new(alloc)),
    }
}

// A second and its milliseconds. The numbers of the date are those of HTTP's, as `Thu, 26 Nov 2026 20:11:07
// GMT`, in the order of RFC 3339.
fn time_text(alloc: Global, date: &HttpDate, millis: u32) -> Result<Vec<u8>, AllocError> {
    let shown = date.to_bytes();
    let mut text = Vec::new(alloc);
    text.extend_from_slice(&shown[12..16])?;
    text.extend_from_slice(month(&shown[8..11]))?;
    text.extend_from_slice(&shown[5..7])?;
    text.push(b'T')?;
    text.extend_from_slice(&shown[17..25])?;
    text.push(b'.')?;
    text.extend_from_slice(&[digit(millis / 100), digit(millis / 10), digit(millis)])?;
    text.extend_from_slice(b"Z ")?;
    Ok(text)
}

// The last digit of a number.
fn digit(number: u32) -> u8 {
    b'0' + (number % 10) as u8
}

// The number of a month between hyphens.
fn month(name: &[u8]) -> &'static [u8] {
    match name {
        b"Jan" => b"-01-",
        b"Feb" => b"-02-",
        b"Mar" => b"-03-",
        b"Apr" => b"-04-",
        b"May" => b"-05-",
        b"Jun" => b"-06-",
        b"Jul" => b"-07-",
        b"Aug" => b"-08-",
        b"Sep" => b"-09-",
        b"Oct" => b"-10-",
        b"Nov" => b"-11-",
        _ => b"-12-",
    }
}
