//! Reference models of both ends, which compute what an end sends from all that it got. Items, options,
//! characters and lists of characters come from the parts whose contracts define them.

use std::alloc::Global;
use tn_codes::Triple;

pub(crate) mod client;
pub(crate) mod server;

/// Appends a subnegotiation.
pub(crate) fn say_sub(option: u8, params: &[u8], sent: &mut Vec<u8>) {
    let _refused = sent.extend_from_slice(&[255, 250, option]);
    for byte in params {
        let _refused = sent.push(*byte);
        if *byte == 255 {
            let _refused = sent.push(*byte);
        }
    }
    let _refused = sent.extend_from_slice(&[255, 240]);
}

/// Appends a list of local characters, unless it is empty.
pub(crate) fn say_list(alloc: Global, triples: &[Triple], sent: &mut Vec<u8>) {
    if triples.is_empty() {
        return;
    }
    let mut params = Vec::new(alloc);
    let _refused = params.push(3);
    for triple in triples {
        let _refused = params.extend_from_slice(&[triple.func, triple.flags, triple.value]);
    }
    say_sub(34, &params, sent);
}

/// Returns the triples of a list of local characters.
pub(crate) fn triples_of(alloc: Global, list: &[u8]) -> Vec<Triple> {
    let mut triples = Vec::new(alloc);
    for triple in list.chunks(3) {
        if let [func, flags, value] = triple {
            let (func, flags, value) = (*func, *flags, *value);
            let _refused = triples.push(Triple { func, flags, value });
        }
    }
    triples
}
