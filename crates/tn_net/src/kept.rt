//! The inputs that were typed and are still to be given to a session: a queue of keys, with the
//! control functions that are requested between them.

ghost use Rattle.std.specs.Prelude.{◌≡◌, ◌≤◌, ◌<◌, ◌+◌, ◌++◌, IsTrue, None, length, map, option_to_list};
ghost use Rattle.std.specs.{Prelude.take, List.count_by, VecDeque.{deque_capacity, deque_len}};
ghost use Rattle.tn_net.specs.{Kept.{control_at_front, key_at_front}, Typing.is_key};
ghost use Rattle.tn_net.specs.declared.escaping.SessionInput.TheVariants as input;

use crate::escaping::SessionInput;
use std::collections::VecDeque;
use tn_cores::streams::Control;

/// The most keys that are kept: 16 million.
const MAX_KEPT: usize = 16_777_216;

/// Returns whether this number more can be kept.
pub(crate) fn makes_room(kept: &mut VecDeque<SessionInput>, count: usize) -> bool
    ensures kept { kept.new.items ≡ kept.old.items }
    ensures room { IsTrue result → deque_len kept.new + count ≤ deque_capacity kept.new }
{
    kept.len() < MAX_KEPT && kept.reserve(count).is_ok()
}

/// Returns how many of the kept inputs are keys.
pub(crate) fn count_keys(kept: &VecDeque<SessionInput>) -> usize
    ensures { result ≡ count_by is_key kept.now.items }
{
    let mut count = 0usize;
    for input in kept {
        if matches!(input, SessionInput::Key(_)) {
            count += 1;
        }
    }
    count
}

/// Gives the first keys, as many as there is room for, and none after a control function.
pub(crate) fn give(kept: &mut VecDeque<SessionInput>, buf: &mut [u8]) -> usize
    ensures bound { result ≤ length buf.new }
    ensures gives { map input.Key (take result buf.new) ++ kept.new.items ≡ kept.old.items }
    ensures all { result < length buf.new → key_at_front kept.new.items ≡ None }
{
    for place in 0..buf.len() {
        let Some(key) = first_key(kept) else {
            return place;
        };
        buf[place] = key;
    }
    buf.len()
}

// Takes what is first, if it is a key.
fn first_key(kept: &mut VecDeque<SessionInput>) -> Option<u8>
    ensures takes { map input.Key (option_to_list result) ++ kept.new.items ≡ kept.old.items }
    ensures first { result ≡ key_at_front kept.old.items }
{
    match kept.front() {
        Some(SessionInput::Key(key)) => {
            let key = *key;
            let _first = kept.pop_front();
            Some(key)
        },
        _ => None,
    }
}

/// Takes what is first, if it is a control function.
pub(crate) fn first_control(kept: &mut VecDeque<SessionInput>) -> Option<Control>
    ensures takes { map input.Control (option_to_list result) ++ kept.new.items ≡ kept.old.items }
    ensures first { result ≡ control_at_front kept.old.items }
{
    match kept.front() {
        Some(SessionInput::Control(control)) => {
            let control = *control;
            let _first = kept.pop_front();
            Some(control)
        },
        _ => None,
    }
}
