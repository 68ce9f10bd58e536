//! Writes the parameters of a subnegotiation.

ghost use Rattle.std.specs.Prelude.{◌≡◌, ◌+◌, ◌≤◌, ◌<◌, ◌++◌, [], ◌∷◌, length, take, flat_map};
ghost use Rattle.std.specs.Prelude.{vec_len, vec_capacity, OnOk, OnErr, IfSome, IfNone};
ghost use Rattle.tn_codes.specs.{declared.codes.Verb.TheVariants.DoIt, Codes.verb_code};
ghost use Rattle.tn_codes.specs.Payloads.{Says, option_of, parameters_of, IsShort, forwardmask, slc};
ghost use Rattle.tn_codes.specs.{Payloads.{octets_of, max_triples}, Counted.{listed, HasMany}};
ghost use Rattle.tn_codes.specs.Masks as mask;

use crate::codes::Verb;
use crate::numbers::{FORWARDMASK, MODE, SLC};
use crate::payloads::Payload;
use crate::triples::Triple;
use std::alloc::AllocError;

/// Appends the parameters that encode a payload, at most 511 bytes, no byte of them doubled. They
/// fit one subnegotiation, and `read_payload` reads the payload from them again (RFC 1073, RFC
/// 1184).
///
/// # Errors
///
/// - `AllocError`: `out` has too little capacity, and there is no memory for more; `out` is as
///   before.
pub fn write_payload(payload: &Payload, out: &mut Vec<u8>) -> Result<(), AllocError>
    requires { IsShort payload.now }
    ensures ok { OnOk result (out.new.items ≡ out.old.items ++ parameters_of payload.now) }
    ensures said { OnOk result
        (Says (option_of payload.now) (parameters_of payload.now) payload.now) }
    ensures short { OnOk result (length (parameters_of payload.now) ≤ 511) }
    ensures err { OnErr result (out.new.items ≡ out.old.items) }
    ensures full { OnErr result
        (vec_capacity out.old < vec_len out.old + length (parameters_of payload.now)) }
{
    match payload {
        Payload::ForwardOn(mask) => write_mask(trimmed(&mask.0), out),
        Payload::Slc(triples) => write_triples(triples.as_slice(), out),
        _ => match few_parameters(payload) {
            Some(Few::Two(parameters)) => out.extend_from_slice(&parameters),
            Some(Few::Four(parameters)) => out.extend_from_slice(&parameters),
            None => Ok(()),
        },
    }
}

/// Two or four parameters, in no list.
#[derive(Clone, Copy)]
pub enum Few {
    Two([u8; 2]),
    Four([u8; 4]),
}

/// Returns the parameters of a payload that always has the same number of them, at most four. It
/// returns `None` for a mask and for a list.
pub fn few_parameters(payload: &Payload) -> Option<Few>
    ensures some { IfSome result (λ few. listed few ≡ parameters_of payload.now) }
    ensures said { IfSome result (λ few. Says (option_of payload.now) (listed few) payload.now) }
    ensures few { IfSome result (λ few. length (listed few) ≤ 4) }
    ensures none { IfNone result (HasMany payload.now) }
{
    match payload {
        Payload::Naws { width, height } => {
            let [a, b] = width.to_be_bytes();
            let [c, d] = height.to_be_bytes();
            Some(Few::Four([a, b, c, d]))
        },
        Payload::Mode(mask) => Some(Few::Two([MODE, *mask])),
        Payload::ForwardOff => Some(Few::Two([Verb::DontIt.code(), FORWARDMASK])),
        Payload::ForwardYes => Some(Few::Two([Verb::Will.code(), FORWARDMASK])),
        Payload::ForwardNo => Some(Few::Two([Verb::Wont.code(), FORWARDMASK])),
        Payload::ForwardOn(_) | Payload::Slc(_) => None,
    }
}

/// Returns the parameters of a list of one triple.
pub fn triple_parameters(triple: Triple) -> [u8; 4]
    ensures { result ≡ parameters_of (Payload.Slc (triple ∷ [])) }
{
    [SLC, triple.func, triple.flags, triple.value]
}

/// Returns the length of a mask's octets without the zeros at their end, 0 to 32.
pub fn trimmed_len(octets: &[u8; 32]) -> usize
    ensures octets { take result octets.now ≡ mask.trimmed_octets octets.now }
    ensures within { result ≤ 32 }
{
    let mut len = 0;
    for (i, octet) in octets.iter().enumerate() {
        if *octet != 0 {
            len = i + 1;
        }
    }
    len
}

// Returns the octets without the zeros at their end.
fn trimmed(octets: &[u8; 32]) -> &[u8]
    ensures octets { result.now ≡ mask.trimmed_octets octets.now }
    ensures filled { octets.now ≡ mask.filled_octets result.now }
    ensures len { length result.now ≤ 32 }
{
    &octets[..trimmed_len(octets)]
}

fn write_mask(octets: &[u8], out: &mut Vec<u8>) -> Result<(), AllocError>
    requires { length octets.now ≤ 32 }
    ensures ok { OnOk result
        (out.new.items ≡ out.old.items ++ verb_code DoIt ∷ forwardmask ∷ octets.now) }
    ensures err { OnErr result (out.new.items ≡ out.old.items) }
    ensures full { OnErr result
        (vec_capacity out.old < vec_len out.old + (length octets.now + 2)) }
{
    out.reserve(octets.len() + 2)?;
    out.push_reserved(Verb::DoIt.code());
    out.push_reserved(FORWARDMASK);
    for octet in octets {
        out.push_reserved(*octet);
    }
    Ok(())
}

fn write_triples(triples: &[Triple], out: &mut Vec<u8>) -> Result<(), AllocError>
    requires { length triples.now ≤ max_triples }
    ensures ok { OnOk result
        (out.new.items ≡ out.old.items ++ slc ∷ flat_map octets_of triples.now) }
    ensures short { OnOk result (length (slc ∷ flat_map octets_of triples.now) ≤ 511) }
    ensures err { OnErr result (out.new.items ≡ out.old.items) }
    ensures full { OnErr result
        (vec_capacity out.old < vec_len out.old + length (slc ∷ flat_map octets_of triples.now)) }
{
    out.reserve(3 * triples.len() + 1)?;
    out.push_reserved(SLC);
    for triple in triples {
        out.push_reserved(triple.func);
        out.push_reserved(triple.flags);
        out.push_reserved(triple.value);
    }
    Ok(())
}
