//! Escapes outside of a subnegotiation, each read at once if all of it has come.

ghost use Rattle.std.specs.Prelude.{◌≡◌, ◌≢◌, ◌<◌, length, slice_index};
ghost use Rattle.tn_nvt.specs.{declared.places.Body.Body as Held, Machine.{progress, given_items, HasNoRun}};
ghost use Rattle.tn_nvt.specs.Runs.{Escapes};
ghost use Rattle.tn_nvt.specs.declared.places.Given.TheVariants as given;
ghost use Rattle.tn_nvt.specs.declared.places.Place.TheVariants as place;
ghost use Rattle.tn_nvt.specs.Spelling as spelling;

use crate::bytes::{CR, LF, NUL};
use crate::places::{Body, Given, Place, after_iac};
use tn_codes::Verb;

/// Returns the place to which the escape that the bytes begin with leads, what the escape
/// completes, and its length in bytes.
#[inline(always)]
pub(crate) fn escape(body: &mut Body, bytes: &[u8]) -> (Place, Given, usize)
    requires some { 0 < length bytes.now }
    requires none { HasNoRun place.Outside (slice_index bytes.now 0) }
    ensures escapes { Escapes bytes.now result.2 (given_items result.1 body.new)
        (progress result.0 body.new) }
    ensures closes { result.1 ≢ given.Sub }
{
    if bytes[0] == CR {
        return after_first_cr(bytes);
    }
    after_first_iac(body, bytes)
}

// Reads an escape that begins with CR; one that neither LF nor NUL follows is no more than begun.
#[inline(always)]
fn after_first_cr(bytes: &[u8]) -> (Place, Given, usize)
    requires some { 0 < length bytes.now }
    requires first { slice_index bytes.now 0 ≡ spelling.cr }
    ensures escapes { (body : Held) → Escapes bytes.now result.2 (given_items result.1 body)
        (progress result.0 body) }
    ensures closes { result.1 ≢ given.Sub }
{
    if bytes.len() < 2 {
        return (Place::AfterCr, Given::Nothing, 1);
    }
    match bytes[1] {
        LF => (Place::Outside, Given::Newline, 2),
        NUL => (Place::Outside, Given::Byte(CR), 2),
        _ => (Place::AfterCr, Given::Nothing, 1),
    }
}

#[inline(always)]
fn after_first_iac(body: &mut Body, bytes: &[u8]) -> (Place, Given, usize)
    requires some { 0 < length bytes.now }
    requires first { slice_index bytes.now 0 ≡ spelling.iac }
    ensures escapes { Escapes bytes.now result.2 (given_items result.1 body.new)
        (progress result.0 body.new) }
    ensures closes { result.1 ≢ given.Sub }
{
    if bytes.len() < 2 {
        return (Place::AfterIac, Given::Nothing, 1);
    }
    let second = bytes[1];
    if let Some(verb) = Verb::from_code(second) {
        if bytes.len() < 3 {
            return (Place::AfterVerb(verb), Given::Nothing, 2);
        }
        return (Place::Outside, Given::Neg(verb, bytes[2]), 3);
    }
    let (next, given) = after_iac(body, second);
    (next, given, 2)
}
