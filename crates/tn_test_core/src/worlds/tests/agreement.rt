//! The options of both ends of a world.

use super::playing::{open, play};
use std::process::Abort;
use tn_discipline::Limit;
use tn_world::{Event, World, WorldFault};

fn exchange(world: &mut World) -> Result<(), WorldFault> {
    for _round in 0..4 {
        play(world, Event::ToServer(99))?;
        play(world, Event::ToClient(99))?;
    }
    Ok(())
}

// They do not agree yet once the client has the opening messages, and do once nothing is in flight.
fn comes_to_agree(rt: &impl Abort, world: &mut World) -> Result<(), WorldFault> {
    play(world, Event::ToClient(15))?;
    assert!(rt; !world.options_agree());
    exchange(world)?;
    assert!(rt; world.options_agree());
    Ok(())
}

// LINEMODE is on only at the client, until its message has come to the server.
#[test]
fn options_agree_once_nothing_is_in_flight(rt: HostRuntime) {
    if let Ok(mut world) = open(rt.alloc(), Limit::standard()) {
        let _refused = comes_to_agree(&rt, &mut world);
    }
}
