//! The limit of a half-typed line.

use std::process::Abort;
use tn_discipline::{Effect, Limit, Line, Settings};

#[test]
fn a_limit_is_of_255_to_4095_bytes(rt: HostRuntime) {
    for (bytes, within) in [(254, false), (255, true), (4095, true), (4096, false)] {
        let limit = Limit::new(bytes);
        assert_eq!(rt; limit.is_some(), within, "of {bytes}");
        assert!(rt; limit.map_or(bytes, Limit::bytes) == bytes);
    }
    assert!(rt; Limit::new(255) == Some(Limit::standard()));
}

// The line keeps as many keys as it may have bytes, less one for the byte that closes it.
fn fills(rt: &impl Abort, line: &mut Line) {
    let settings = Settings::standard();
    for _ in 0..4_094 {
        let effect = line.key(&settings, b'a');
        assert!(rt; matches!(&effect, Ok(Effect::Kept)));
    }
    let effect = line.key(&settings, b'a');
    assert!(rt; matches!(&effect, Ok(Effect::Dropped)));
}

#[test]
fn a_line_is_full_at_its_limit(rt: HostRuntime) {
    let limit = Limit::new(4095).unwrap_or(Limit::standard());
    if let Ok(mut line) = Line::new(rt.alloc(), limit) {
        fills(&rt, &mut line);
    }
}
