//! Appends a server end's special characters and forward masks.

ghost use Rattle.std.specs.Prelude.{◌≡◌, ◌++◌, IsTrue, length, OnOk, OnErr};
ghost use Rattle.tn_nvt.specs.{Room.LacksRoom, Spelling.spells};
ghost use Rattle.tn_server.specs.Replies.{triple_items, forward_payload};
ghost use Rattle.tn_linemode.specs.Words.{payload_items};

use std::alloc::AllocError;
use tn_codes::{Func, Mask, Payload};
use tn_linemode::{put_payload, put_triple, triple_of};

/// Appends the triple of one character, if it is to be sent.
pub(crate) fn put_char(
    is_told: bool,
    func: Func,
    value: Option<u8>,
    out: &mut Vec<u8>,
) -> Result<(), AllocError>
    ensures ok { OnOk result (out.new.items ≡ out.old.items ++ spells (triple_items is_told func value)) }
    ensures err { OnErr result (out.new.items ≡ out.old.items) }
    ensures some { OnErr result (IsTrue is_told) }
    ensures full { OnErr result (LacksRoom out.old (length (spells (triple_items is_told func value)))) }
{
    if !is_told {
        return Ok(());
    }
    put_triple(triple_of(func, value), out)
}

/// Appends a forward mask, or the message that there is none any more.
pub(crate) fn put_mask(mask: Option<Mask>, out: &mut Vec<u8>) -> Result<(), AllocError>
    ensures ok { OnOk result (out.new.items ≡
        out.old.items ++ spells (payload_items (forward_payload mask))) }
    ensures err { OnErr result (out.new.items ≡ out.old.items) }
    ensures full { OnErr result
        (LacksRoom out.old (length (spells (payload_items (forward_payload mask))))) }
{
    match mask {
        Some(mask) => put_payload(&Payload::ForwardOn(mask), out),
        None => put_payload(&Payload::ForwardOff, out),
    }
}
