//! The values of a subcommand's options.

ghost use Rattle.std.specs.Prelude.{◌≤◌, IfSome};
ghost use Rattle.tn_cli.specs.arguments.Ranges.{IsWithin};

use crate::arguments::options::Whole;
use clap::ArgMatches;
use std::alloc::{AllocError, Global};

pub(crate) fn is_flagged(words: &ArgMatches<'_>, name: &str) -> bool {
    match words.get_str(name) {
        Some(text) => text == "true",
        None => false,
    }
}

pub(crate) fn is_given(words: &ArgMatches<'_>, name: &str) -> bool {
    words.get_str(name).is_some()
}

// The text of an option, if it is given.
pub(crate) fn text_of(
    alloc: Global,
    words: &ArgMatches<'_>,
    name: &str,
) -> Result<Option<String>, AllocError> {
    match words.get_str(name) {
        Some(text) => Ok(Some(String::from_str(alloc, text)?)),
        None => Ok(None),
    }
}

// The number of an option; `None` if it is missing or out of its range.
pub(crate) fn number(words: &ArgMatches<'_>, whole: Whole) -> Option<u32>
    ensures { IfSome result (IsWithin whole.least whole.most) }
{
    let number = words.get_one::<u32>(whole.name)?;
    if number < whole.least {
        return None;
    }
    if whole.most < number {
        return None;
    }
    Some(number)
}

// The number of an option, if it is given; `None` if it is out of its range.
pub(crate) fn given_number(words: &ArgMatches<'_>, whole: Whole) -> Option<Option<u32>>
    ensures { IfSome result (λ given. IfSome given (IsWithin whole.least whole.most)) }
{
    if !is_given(words, whole.name) {
        return Some(None);
    }
    Some(Some(number(words, whole)?))
}

// The number of an option whose range lies within two bytes.
pub(crate) fn short_number(words: &ArgMatches<'_>, whole: Whole) -> Option<u16>
    requires { whole.most ≤ 65535 }
    ensures { IfSome result (IsWithin whole.least whole.most) }
{
    Some(number(words, whole)? as u16)
}

// The number of an option whose range lies within two bytes, if it is given; `None` if it is out of its range.
pub(crate) fn given_short(words: &ArgMatches<'_>, whole: Whole) -> Option<Option<u16>>
    requires { whole.most ≤ 65535 }
    ensures { IfSome result (λ given. IfSome given (IsWithin whole.least whole.most)) }
{
    if !is_given(words, whole.name) {
        return Some(None);
    }
    Some(Some(short_number(words, whole)?))
}
