//! The meaning of one triple of a list of local characters (RFC 1184, section 2.4).

ghost use Rattle.std.specs.Prelude.{◌≡◌, ◌+◌, ◌<◌, ◌≤◌, ◌++◌, length, is_ok, option_to_list, vec_len};
ghost use Rattle.std.specs.Prelude.{vec_capacity, OnOk, OnErr, if◌then◌else◌};
ghost use Rattle.tn_linemode.specs.Triples.{has_ack, level_of, special_at, wanted_character, saying_of};
ghost use Rattle.tn_linemode.specs.Triples.{triple_of, acknowledged_triple, unsupported_triple};
ghost use Rattle.tn_linemode.specs.Exchange.{announcement};

use std::alloc::AllocError;
use tn_codes::{ACK, Func, LEVEL_BITS, Level, Triple};
use tn_discipline::{Chars, SPECIAL, special_characters};

/// The meaning of a triple, whether it is an acknowledgement or not.
#[derive(Clone, Copy, PartialEq, Eq)]
pub enum Saying {
    /// All functions are to have their standard characters, and the table is requested.
    Standard,
    /// The table is requested.
    Table,
    /// A function is to have this character, or none.
    Character(Func, Option<u8>),
    /// The triple names a function that has no character in this table.
    Unsupported(u8),
    Nothing,
}

macro_rules! whole_table {
    ($chars:expr, $($func:ident $name:ident [$($command:ident)?] = $standard:expr),*) => {
        [$(triple_of(Func::$func, $chars.get(Func::$func))),*]
    };
}

pub fn has_ack(triple: Triple) -> bool
    ensures { result ≡ has_ack triple }
{
    triple.flags & ACK != 0
}

fn level_of(triple: Triple) -> Level
    ensures { result ≡ level_of triple }
{
    match triple.flags & LEVEL_BITS {
        0 => Level::NoSupport,
        1 => Level::CantChange,
        2 => Level::Value,
        _ => Level::ByDefault,
    }
}

fn special_at(code: u8) -> Option<Func>
    ensures { result ≡ special_at code }
{
    SPECIAL.iter().copied().find(|func| func.code() == code)
}

fn wanted(func: Func, level: Level, value: u8) -> Option<u8>
    ensures { result ≡ wanted_character func level value }
{
    match level {
        Level::NoSupport => None,
        Level::ByDefault => Chars::standard().get(func),
        Level::CantChange | Level::Value => { if value == 255 { None } else { Some(value) } },
    }
}

/// Returns the meaning of a triple. The flush flags and the bits that no rule names do not matter.
pub fn reading_of(triple: Triple) -> Saying
    ensures { result ≡ saying_of triple }
{
    let level = level_of(triple);
    if triple.func == 0 {
        return match level {
            Level::ByDefault if triple.value == 0 => Saying::Standard,
            Level::Value if triple.value == 0 => Saying::Table,
            _ => Saying::Nothing,
        };
    }
    match special_at(triple.func) {
        Some(func) => Saying::Character(func, wanted(func, level, triple.value)),
        None if level == Level::NoSupport => Saying::Nothing,
        None => Saying::Unsupported(triple.func),
    }
}

/// Returns the triple that gives a function this character, or none.
pub fn triple_of(func: Func, value: Option<u8>) -> Triple
    ensures { result ≡ triple_of func value }
{
    match value {
        Some(value) => Triple {
            func: func.code(),
            flags: Level::Value.code(),
            value,
        },
        None => unsupported(func.code()),
    }
}

/// Returns the triple that acknowledges this character of a function, or none.
pub fn acknowledging(func: Func, value: Option<u8>) -> Triple
    ensures { result ≡ acknowledged_triple (triple_of func value) }
{
    let triple = triple_of(func, value);
    Triple {
        flags: triple.flags | ACK,
        ..triple
    }
}

/// Returns the triple that answers that a function has no character.
pub fn unsupported(code: u8) -> Triple
    ensures { result ≡ unsupported_triple code }
{
    Triple {
        func: code,
        flags: Level::NoSupport.code(),
        value: 0,
    }
}

/// Returns the whole table: a triple for each function that has a character, in rising number.
#[tactic(auto, unfolding(crate::specs::Exchange::announcement))]
pub fn table_of(chars: &Chars) -> [Triple; 8]
    ensures { result ≡ announcement chars.now }
{
    special_characters!(whole_table, chars)
}

/// Appends an answer, if there is one.
///
/// # Errors
///
/// - `AllocError`: the vector has no room for the answer, and there is no memory for more; its
///   items have not changed.
pub fn push_answer(answers: &mut Vec<Triple>, answer: Option<Triple>) -> Result<(), AllocError>
    ensures items { answers.new.items ≡
        (if is_ok result then answers.old.items ++ option_to_list answer else answers.old.items) }
    ensures len { OnOk result
        (vec_len answers.new ≡ vec_len answers.old + length (option_to_list answer)) }
    ensures capacity { vec_capacity answers.old ≤ vec_capacity answers.new }
    ensures full { let replies = option_to_list answer in
        OnErr result (vec_capacity answers.old < vec_len answers.old + length replies) }
{
    if let Some(triple) = answer {
        return Ok(answers.push(triple)?);
    }
    Ok(())
}
