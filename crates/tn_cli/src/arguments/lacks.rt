//! Why a command line that `clap` takes is not accepted.

use crate::arguments::words::WordsFault;
use std::alloc::Global;
use thiserror::Error as ErrorText;

/// Why words that `clap` takes ask for nothing.
#[derive(Clone, Copy, Debug, ErrorText)]
pub(crate) enum Lack<'a> {
    /// That is wrong.
    #[error("error: {0}\n\nFor more information, try '--help'.\n")]
    Words(&'static str),
    /// The text is no value for that.
    #[error("error: invalid value '{0}' for {1}\n\nFor more information, try '--help'.\n")]
    Value(&'a str, &'static str),
}

/// A number is missing or out of its range.
pub(crate) const NO_NUMBER: Lack<'static> = Lack::Words("a value is missing or out of its range");

pub(crate) fn lacking(alloc: Global, lack: &Lack<'_>) -> WordsFault {
    match lack.to_string(alloc) {
        Ok(text) => WordsFault::Usage(text),
        Err(_) => WordsFault::Memory,
    }
}

pub(crate) fn no_value(alloc: Global) -> WordsFault {
    lacking(alloc, &NO_NUMBER)
}
