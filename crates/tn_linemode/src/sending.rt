//! Appends what an end sends: option messages and payloads, each whole or not at all.

ghost use Rattle.std.specs.Prelude.{◌≡◌, ◌≢◌, ◌≤◌, [], ◌∷◌, ◌++◌, length, vec_capacity, OnOk, OnErr};
ghost use Rattle.tn_codes.specs.Payloads.{option_of, IsShort, max_triples};
ghost use Rattle.tn_codes.specs.declared.payloads.Payload.TheVariants as payload;
ghost use Rattle.tn_nvt.specs.{Room.LacksRoom, Spelling.spells};
ghost use Rattle.tn_linemode.specs.Words.{word_items, payload_items, mode_items, list_items};

use crate::parameters::{list_parameters, mask_parameters};
use std::alloc::AllocError;
use tn_codes::{Few, Mask, Payload, Triple, Verb, few_parameters, trimmed_len, triple_parameters};
use tn_nvt::{put_neg, put_sub};
use tn_option::{LINEMODE, NAWS};

/// Appends an option message, if there is one (RFC 855).
///
/// # Errors
///
/// - `AllocError`: there is no memory for its three bytes; nothing was appended.
pub fn put_word(said: Option<(Verb, u8)>, out: &mut Vec<u8>) -> Result<(), AllocError>
    ensures ok { OnOk result (out.new.items ≡ out.old.items ++ spells (word_items said)) }
    ensures err { OnErr result (out.new.items ≡ out.old.items) }
    ensures some { OnErr result (word_items said ≢ []) }
    ensures full { OnErr result (LacksRoom out.old (length (spells (word_items said)))) }
    ensures capacity { vec_capacity out.old ≤ vec_capacity out.new }
{
    match said {
        Some((verb, option)) => put_neg(verb, option, out),
        None => Ok(()),
    }
}

/// Appends a payload as a subnegotiation of its option.
///
/// # Errors
///
/// - `AllocError`: there is no memory for the spelling; nothing was appended.
pub fn put_payload(payload: &Payload, out: &mut Vec<u8>) -> Result<(), AllocError>
    requires { IsShort payload.now }
    ensures ok { OnOk result (out.new.items ≡ out.old.items ++ spells (payload_items payload.now)) }
    ensures err { OnErr result (out.new.items ≡ out.old.items) }
    ensures full { OnErr result (LacksRoom out.old (length (spells (payload_items payload.now)))) }
    ensures capacity { vec_capacity out.old ≤ vec_capacity out.new }
{
    match payload {
        Payload::ForwardOn(mask) => put_mask(mask, out),
        Payload::Slc(triples) => put_triples(triples.as_slice(), out),
        _ => match few_parameters(payload) {
            Some(Few::Two(parameters)) => put_sub(option_of(payload), &parameters, out),
            Some(Few::Four(parameters)) => put_sub(option_of(payload), &parameters, out),
            None => Ok(()),
        },
    }
}

// Appends a forward mask.
fn put_mask(mask: &Mask, out: &mut Vec<u8>) -> Result<(), AllocError>
    ensures ok { OnOk result
        (out.new.items ≡ out.old.items ++ spells (payload_items (payload.ForwardOn mask.now))) }
    ensures err { OnErr result (out.new.items ≡ out.old.items) }
    ensures full { OnErr result
        (LacksRoom out.old (length (spells (payload_items (payload.ForwardOn mask.now))))) }
    ensures capacity { vec_capacity out.old ≤ vec_capacity out.new }
{
    let parameters = mask_parameters(mask);
    put_sub(LINEMODE, &parameters[..trimmed_len(&mask.0) + 2], out)
}

// Appends a list of local characters.
fn put_triples(triples: &[Triple], out: &mut Vec<u8>) -> Result<(), AllocError>
    requires { length triples.now ≤ max_triples }
    ensures ok { OnOk result
        (out.new.items ≡ out.old.items ++ spells (payload_items (payload.Slc triples.now))) }
    ensures err { OnErr result (out.new.items ≡ out.old.items) }
    ensures full { OnErr result
        (LacksRoom out.old (length (spells (payload_items (payload.Slc triples.now))))) }
    ensures capacity { vec_capacity out.old ≤ vec_capacity out.new }
{
    let parameters = list_parameters(triples);
    put_sub(LINEMODE, &parameters[..3 * triples.len() + 1], out)
}

// Returns the option whose subnegotiation carries the payload.
fn option_of(payload: &Payload) -> u8
    ensures { result ≡ option_of payload.now }
{
    match payload {
        Payload::Naws {
            width: _,
            height: _,
        } => NAWS,
        _ => LINEMODE,
    }
}

/// Appends a MODE with this mask, if there is one (RFC 1184, section 2.2).
///
/// # Errors
///
/// - `AllocError`: there is no memory for the spelling; nothing was appended.
pub fn put_mode(mask: Option<u8>, out: &mut Vec<u8>) -> Result<(), AllocError>
    ensures ok { OnOk result (out.new.items ≡ out.old.items ++ spells (mode_items mask)) }
    ensures err { OnErr result (out.new.items ≡ out.old.items) }
    ensures some { OnErr result (mode_items mask ≢ []) }
    ensures full { OnErr result (LacksRoom out.old (length (spells (mode_items mask)))) }
    ensures capacity { vec_capacity out.old ≤ vec_capacity out.new }
{
    match mask {
        Some(mask) => put_payload(&Payload::Mode(mask), out),
        None => Ok(()),
    }
}

/// Appends a list of local characters, at most 170 triples, unless it is empty (RFC 1184, section
/// 2.4).
///
/// # Errors
///
/// - `AllocError`: there is no memory for the spelling; nothing was appended.
pub fn put_list(triples: &[Triple], out: &mut Vec<u8>) -> Result<(), AllocError>
    requires { length triples.now ≤ max_triples }
    ensures ok { OnOk result (out.new.items ≡ out.old.items ++ spells (list_items triples.now)) }
    ensures err { OnErr result (out.new.items ≡ out.old.items) }
    ensures some { OnErr result (triples.now ≢ []) }
    ensures full { OnErr result (LacksRoom out.old (length (spells (list_items triples.now)))) }
    ensures capacity { vec_capacity out.old ≤ vec_capacity out.new }
{
    if triples.is_empty() {
        return Ok(());
    }
    put_triples(triples, out)
}

/// Appends a list of one triple (RFC 1184, section 2.4).
///
/// # Errors
///
/// - `AllocError`: there is no memory for the spelling; nothing was appended.
pub fn put_triple(triple: Triple, out: &mut Vec<u8>) -> Result<(), AllocError>
    ensures ok { OnOk result (out.new.items ≡ out.old.items ++ spells (list_items (triple ∷ []))) }
    ensures err { OnErr result (out.new.items ≡ out.old.items) }
    ensures full { OnErr result (LacksRoom out.old (length (spells (list_items (triple ∷ []))))) }
{
    put_sub(LINEMODE, &triple_parameters(triple), out)
}
