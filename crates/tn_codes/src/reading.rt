//! Reads the parameters of a subnegotiation.

ghost use Rattle.std.specs.Prelude.{◌≡◌, ◌≢◌, ◌↔◌, ◌⊎◌, ◌≤◌, ◌∷◌, length, Some, None};
ghost use Rattle.std.specs.Prelude.{IsOk, IfOk, IsErrOf, MatchResult};
ghost use Rattle.tn_codes.specs.{declared.payloads.Payload.Payload, Codes.verb_code, PayloadOf.payload_of};
ghost use Rattle.tn_codes.specs.{OptionCodes.{naws, linemode}, Payloads.{HasBadLength, TakesMemory}};
ghost use Rattle.tn_codes.specs.Payloads.{mode, forwardmask, slc, Says, Tells, IsUnknownOption, IsUnknownSub};

use crate::codes::Verb;
use crate::masks::Mask;
use crate::numbers::{FORWARDMASK, LINEMODE, MODE, NAWS, SLC};
use crate::payloads::{Payload, PayloadFault};
use crate::triples::{Triple, Triples};
use std::alloc::Global;

/// Reads the payload that the parameters of an option's subnegotiation encode, of NAWS (31, RFC
/// 1073) or LINEMODE (34, RFC 1184, section 2). No byte of the parameters is doubled.
///
/// # Errors
///
/// - `UnknownOption`: the option is neither NAWS nor LINEMODE.
/// - `UnknownSub`: the option is LINEMODE, and the subnegotiation is of no known kind.
/// - `BadLength`: the length is not one that the kind has.
/// - `Memory`: there is no memory for a list of local characters; other payloads take none.
pub fn read_payload(alloc: Global, option: u8, bytes: &[u8]) -> Result<Payload, PayloadFault>
    ensures ok { IfOk result (λ payload. Says option bytes.now payload) }
    ensures said { (payload : Payload) → Says option bytes.now payload →
        IsOk result ⊎ IsErrOf result PayloadFault.Memory }
    ensures unknown_option { IsErrOf result PayloadFault.UnknownOption ↔ IsUnknownOption option }
    ensures unknown_sub { IsErrOf result PayloadFault.UnknownSub ↔ IsUnknownSub option bytes.now }
    ensures bad_length { IsErrOf result PayloadFault.BadLength ↔ HasBadLength option bytes.now }
    ensures memory { IsErrOf result PayloadFault.Memory → TakesMemory option bytes.now }

    // The clauses above by one function.
    ensures payload { MatchResult result (λ payload. payload_of option bytes.now ≡ Some payload)
        (λ fault. fault ≢ PayloadFault.Memory → payload_of option bytes.now ≡ None) }
{
    match option {
        NAWS => read_size(bytes),
        LINEMODE => read_linemode(alloc, bytes),
        _ => Err(PayloadFault::UnknownOption),
    }
}

fn read_size(bytes: &[u8]) -> Result<Payload, PayloadFault>
    ensures { Tells naws bytes.now result }
{
    match bytes {
        [a, b, c, d] => Ok(Payload::Naws {
            width: u16::from_be_bytes([*a, *b]),
            height: u16::from_be_bytes([*c, *d]),
        }),
        _ => Err(PayloadFault::BadLength),
    }
}

fn read_linemode(alloc: Global, bytes: &[u8]) -> Result<Payload, PayloadFault>
    ensures { Tells linemode bytes.now result }
{
    match bytes {
        [] => Err(PayloadFault::BadLength),
        [MODE, rest @ ..] => read_mode(rest),
        [SLC, octets @ ..] => read_triples(alloc, octets),
        [first, rest @ ..] => read_forwardmask(*first, rest),
    }
}

fn read_mode(rest: &[u8]) -> Result<Payload, PayloadFault>
    ensures { Tells linemode (mode ∷ rest.now) result }
{
    match rest {
        [mask] => Ok(Payload::Mode(*mask)),
        _ => Err(PayloadFault::BadLength),
    }
}

fn read_triples(alloc: Global, octets: &[u8]) -> Result<Payload, PayloadFault>
    ensures { Tells linemode (slc ∷ octets.now) result }
{
    if octets.len() % 3 != 0 {
        return Err(PayloadFault::BadLength);
    }
    let mut triples = Vec::new(alloc);
    let mut rest = octets;
    while let [func, flags, value, tail @ ..] = rest {
        let triple = Triple {
            func: *func,
            flags: *flags,
            value: *value,
        };
        if triples.push(triple).is_err() {
            return Err(PayloadFault::Memory);
        }
        rest = tail;
    }
    Ok(Payload::Slc(Triples::from(triples)))
}

fn read_forwardmask(first: u8, rest: &[u8]) -> Result<Payload, PayloadFault>
    requires mode { first ≢ mode }
    requires slc { first ≢ slc }
    ensures { Tells linemode (first ∷ rest.now) result }
{
    let Some(verb) = Verb::from_code(first) else {
        return Err(PayloadFault::UnknownSub);
    };
    match rest {
        [] => Err(PayloadFault::BadLength),
        [FORWARDMASK, octets @ ..] => read_command(verb, octets),
        _ => Err(PayloadFault::UnknownSub),
    }
}

fn read_command(verb: Verb, octets: &[u8]) -> Result<Payload, PayloadFault>
    ensures { Tells linemode (verb_code verb ∷ forwardmask ∷ octets.now) result }
{
    let limit = match verb {
        Verb::DoIt => 32,
        _ => 0,
    };
    if octets.len() > limit {
        return Err(PayloadFault::BadLength);
    }
    Ok(match verb {
        Verb::Will => Payload::ForwardYes,
        Verb::Wont => Payload::ForwardNo,
        Verb::DoIt => Payload::ForwardOn(Mask::from_octets(octets)),
        Verb::DontIt => Payload::ForwardOff,
    })
}
