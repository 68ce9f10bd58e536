//! Lines, decoders and both ends of a Telnet connection for C, behind one opaque handle.
//!
//! Begin with `tn_server_start` or `tn_client_start`, and with `include/tn.h`, which lists the
//! codes that each call returns, and says what C must keep to.
//!
//! ```c
//! tn_server server = TN_HANDLE;
//! if (tn_server_start(&server, &flags, 255) != TN_OK) return 1;
//! code = tn_server_feed(&server, bytes, length); /* what came; the replies wait in the handle */
//! code = tn_server_read(&server, buf, sizeof buf, &count); /* the first of them, to be sent */
//! tn_server_free(&server);
//! ```
//!
//! `parts` has the calls over references; what is here makes them of pointers. No call waits, and none keeps a pointer
//! that it was lent. `include/tn.h` says what C must keep to.
#![tactic(auto)]

ghost use Rattle.std.specs.Prelude.{◌≡◌};

mod calls;
mod client;
mod decoder;
mod handle;
mod held;
mod line;
mod parts;
mod server;
mod spelling;
mod unboxed;

/// Returns the version of the library: 10,000 times its first number, plus 100 times its second,
/// plus its third.
#[unsafe(no_mangle)]
pub extern "C" fn tn_version() -> u32
    ensures { result ≡ 10200 }
{
    10_200
}
