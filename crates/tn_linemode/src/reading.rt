//! Reads the subnegotiations that came.

ghost use Rattle.std.specs.Prelude.{◌≡◌, IfOk, IfSome, OnErr};
ghost use Rattle.tn_codes.specs.Payloads.{IsShort};
ghost use Rattle.tn_linemode.specs.Words.{payload_under, IsList};

use std::alloc::{AllocError, Global};
use tn_codes::{Payload, PayloadFault, read_payload};
use tn_nvt::{MAX_PARAMETERS, Params};

/// Returns the payload that a subnegotiation encodes, if its option is on; `None` if the option is
/// off, or the parameters encode no payload.
///
/// # Errors
///
/// - `AllocError`: there is no memory for a list of local characters; other payloads take none.
pub fn read_under(
    alloc: Global,
    is_on: bool,
    option: u8,
    params: &Params,
) -> Result<Option<Payload>, AllocError>
    ensures value { IfOk result (λ payload. payload ≡ payload_under is_on option params.now) }
    ensures short { IfOk result (λ payload. IfSome payload IsShort) }
    ensures list { OnErr result (IsList (payload_under is_on option params.now)) }
{
    if !is_on || params.len() > MAX_PARAMETERS {
        return Ok(None);
    }
    match read_payload(alloc, option, params.as_slice()) {
        Ok(payload) => Ok(Some(payload)),
        Err(PayloadFault::Memory) => Err(AllocError),
        Err(_) => Ok(None),
    }
}
