//! Streams of a peer that means harm, repeats itself, or is broken.

use super::clients::Client;
use super::play_all;
use super::servers::Server;
use std::process::Abort;
use tn_discipline::{Entry, Limit, Settings};
use tn_server::ServerEnd;

const AT_A_SERVER: &[(&str, &str)] = &[
    // An unknown option is refused each time.
    (
        "says 1000xfffb63 1000xfffe63; says 1000xfffe63 ; says 1000xfffa63fff0 ",
        "true; true; true",
    ),
    // The table is sent again if LINEMODE comes on again.
    (
        "join; says fffc22fffb22 fffe22fffd22.\
         fffa220303020307021c08020409021a0a027f0b0215110000120000fff0; \
         says fffc22fffb22fffc22fffb22 fffe22fffd22.\
         fffa220303020307021c08020409021a0a027f0b0215110000120000fff0.\
         fffe22fffd22.\
         fffa220303020307021c08020409021a0a027f0b0215110000120000fff0",
        "true; true",
    ),
    // The reply to an option message has at most forty-three bytes. Nothing costs a server more for
    // its bytes: a message that turns LINEMODE on again, once the server was asked to let the
    // client edit.
    (
        "wish local; feed fffd01; says fffc22 ; says fffb22 fffd22.\
         fffa220303020307021c08020409021a0a027f0b0215110000120000fff0.fffa220103fff0fffc01",
        "false; true; true",
    ),
    // A triple that repeats itself is answered once.
    (
        "join; says fffa2203.170x0a0208.fff0 fffa22030a8208fff0; says fffa2203.170x0a0208.fff0 ",
        "true; true",
    ),
    // Each triple that changes something is answered.
    (
        "join; says fffa2203.85x0a02080a0209.fff0 fffa2203.85x0a82080a8209.fff0; \
         feed 610802; feed fffa22030a0204fff0; half; feed 6209; half",
        "true; sent fffa22030a0209fff0; half 610802; half 610802",
    ),
    // Payloads of wrong lengths are skipped.
    (
        "join; says fffa22030a02fff0fffa1f0050fff0 ; size; \
         says fffa22fff0fffa2201fff0fffa22010303fff0 ; mode",
        "true; (80, 24); true; 0",
    ),
    // A subnegotiation that is too long is dropped.
    (
        "says fffa63.100000x41.fff0610d00 ; take; take; says fffa22.600xffff.fff0620d00 ; take",
        "true; text 610a; none; true; text 620a",
    ),
    // A line more than the job may be late ends the session.
    (
        "feed 1025x0d00; feed 61; take-lines; take",
        "Pty(TooFarAhead); Failed; 1024; none",
    ),
];

#[test]
fn a_server_bears_a_client_that_means_harm(rt: HostRuntime) {
    play_all::<Server>(&rt, rt.alloc(), AT_A_SERVER);
}

const AT_A_CLIENT: &[(&str, &str)] = &[
    // Payloads of wrong lengths are skipped.
    (
        "join; feed fffa22fd02.33x01.fff0; feed fffa1f00500018fff0; feed fffa2201fff0; mode",
        "0",
    ),
    // A client's reply to a message has at most sixteen bytes. Nothing costs a client more: a
    // message that turns NAWS on, if each byte of the window's size is spelled twice.
    (
        "resize 65535 65535; feed fffd1f; feed fffe1f; feed fffd1f; feed fffd22; feed fffe22",
        "sent fffb1ffffa1f9xff.f0; sent fffc1f; sent fffb1ffffa1f9xff.f0; sent fffb22; sent fffc22",
    ),
];

#[test]
fn a_client_bears_a_server_that_means_harm(rt: HostRuntime) {
    play_all::<Client>(&rt, rt.alloc(), AT_A_CLIENT);
}

/// A subnegotiation of an unknown option, and 513 parameters: one more than are kept.
fn too_many() -> [u8; 516] {
    let mut piece = [65; 516];
    piece[0] = 255;
    piece[1] = 250;
    piece[2] = 99;
    piece
}

#[test]
fn what_is_dropped_takes_no_memory(rt: HostRuntime) {
    let mut sent = Vec::new(rt.alloc());
    let limit = Limit::standard();
    if let Ok(mut end) = ServerEnd::start(rt.alloc(), Settings::standard(), limit, &mut sent) {
        drops(&rt, &mut end, &mut sent);
    }
}

// Whichever allocation is refused: once the first piece was taken, the second one is, which goes on with what
// is dropped.
fn drops(rt: &impl Abort, end: &mut ServerEnd, sent: &mut Vec<u8>) {
    if end.feed(&too_many(), sent).is_err() {
        return;
    }
    assert!(rt; end.feed(&[65; 99_487], sent).is_ok());
    if end.feed(&[255, 240, 97, 13, 0], sent).is_ok() {
        assert!(rt; takes_a_line(end, sent), "no line");
    }
}

fn takes_a_line(end: &mut ServerEnd, sent: &mut Vec<u8>) -> bool {
    match end.take(sent) {
        Ok(Some(Entry::Text(text))) => text.as_slice() == b"a\n".as_slice(),
        _ => false,
    }
}
