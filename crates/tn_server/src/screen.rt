//! Writes symbols of the screen as bytes of the stream.

ghost use Rattle.std.specs.Prelude.{◌≡◌, ◌+◌, ◌*◌, ◌<◌, ◌≤◌, ◌++◌, map, take, drop, length, vec_len};
ghost use Rattle.std.specs.Prelude.{vec_capacity};
ghost use Rattle.tn_nvt.specs.Spelling.{spelling, spells};
ghost use Rattle.tn_server.specs.Replies.{data_of};

use tn_codes::IAC;
use tn_discipline::Symbol;
use tn_pty::Pair;

const CR: u8 = b'\r';

/// The most bytes that a symbol takes.
pub(crate) const SYMBOL_BYTES: usize = 2;

/// The number of symbols that go one by one if no run begins: a run is not looked for before each
/// of them.
const FEW: usize = 8;

/// Moves the first symbols of a pair to a vector that has room, each in its spelling.
pub(crate) fn spell_front(pair: &mut Pair, count: usize, out: &mut Vec<u8>)
    requires enough { count ≤ length pair.old.queue }
    requires room { vec_len out.old + 2 * count ≤ vec_capacity out.old }
    ensures out { out.new.items ≡ out.old.items ++ spells (map data_of (take count pair.old.queue)) }
    ensures pair { pair.new ≡ record pair.old { queue = drop count pair.old.queue } }
{
    let mut done = 0;
    while done < count {
        done += spell_some(pair, count - done, out);
    }
}

// Moves a run of symbols that are spelled as they are, and the symbol after it, or a few symbols if
// no run begins, and returns how many they are.
fn spell_some(pair: &mut Pair, most: usize, out: &mut Vec<u8>) -> usize
    requires some { 0 < most }
    requires enough { most ≤ length pair.old.queue }
    requires room { vec_len out.old + 2 * most ≤ vec_capacity out.old }
    ensures some { 0 < result }
    ensures within { result ≤ most }
    ensures out { out.new.items ≡ out.old.items ++ spells (map data_of (take result pair.old.queue)) }
    ensures pair { pair.new ≡ record pair.old { queue = drop result pair.old.queue } }
    ensures len { vec_len out.new ≤ vec_len out.old + 2 * result }
    ensures capacity { vec_capacity out.old ≤ vec_capacity out.new }
{
    let run = pull_front(pair, most, out);
    let more = count_behind(run, most);
    spell_each(pair, more, out);
    run + more
}

// Returns the number of symbols that go one by one after a run of this length.
fn count_behind(run: usize, most: usize) -> usize
    requires { run ≤ most }
    ensures within { run + result ≤ most }
    ensures some { 0 < most → 0 < run + result }
{
    if run == 0 {
        return most.min(FEW);
    }
    if run < most {
        return 1;
    }
    0
}

// Moves the run that the symbols begin with, unless they are few, and returns its length.
fn pull_front(pair: &mut Pair, most: usize, out: &mut Vec<u8>) -> usize
    requires enough { most ≤ length pair.old.queue }
    requires room { vec_len out.old + 2 * most ≤ vec_capacity out.old }
    ensures within { result ≤ most }
    ensures out { out.new.items ≡ out.old.items ++ spells (map data_of (take result pair.old.queue)) }
    ensures pair { pair.new ≡ record pair.old { queue = drop result pair.old.queue } }
    ensures len { vec_len out.new ≤ vec_len out.old + 2 * result }
    ensures capacity { vec_capacity out.old ≤ vec_capacity out.new }
{
    if most < FEW {
        return 0;
    }
    pair.pull_run(most, (CR, IAC), out)
}

// Moves symbols one by one.
fn spell_each(pair: &mut Pair, count: usize, out: &mut Vec<u8>)
    requires enough { count ≤ length pair.old.queue }
    requires room { vec_len out.old + 2 * count ≤ vec_capacity out.old }
    ensures out { out.new.items ≡ out.old.items ++ spells (map data_of (take count pair.old.queue)) }
    ensures pair { pair.new ≡ record pair.old { queue = drop count pair.old.queue } }
    ensures len { vec_len out.new ≤ vec_len out.old + 2 * count }
    ensures capacity { vec_capacity out.old ≤ vec_capacity out.new }
{
    for _symbol in 0..count {
        spell_next(pair, out);
    }
}

fn spell_next(pair: &mut Pair, out: &mut Vec<u8>)
    requires some { 0 < length pair.old.queue }
    requires room { vec_len out.old + 2 ≤ vec_capacity out.old }
    ensures out { out.new.items ≡ out.old.items ++ spells (map data_of (take 1 pair.old.queue)) }
    ensures pair { pair.new ≡ record pair.old { queue = drop 1 pair.old.queue } }
    ensures len { vec_len out.new ≤ vec_len out.old + 2 }
    ensures capacity { vec_capacity out.old ≤ vec_capacity out.new }
{
    match pair.pull_symbol() {
        Some(symbol) => spell(symbol, out),
        None => {},
    }
}

fn spell(symbol: Symbol, out: &mut Vec<u8>)
    requires { vec_len out.old + 2 ≤ vec_capacity out.old }
    ensures items { out.new.items ≡ out.old.items ++ spelling (data_of symbol) }
    ensures len { vec_len out.new ≤ vec_len out.old + 2 }
    ensures capacity { vec_capacity out.new ≡ vec_capacity out.old }
{
    match symbol {
        Symbol::Newline => {
            out.push_reserved(b'\r');
            out.push_reserved(b'\n');
        },
        Symbol::Byte(b'\r') => {
            out.push_reserved(b'\r');
            out.push_reserved(0);
        },
        Symbol::Byte(255) => {
            out.push_reserved(255);
            out.push_reserved(255);
        },
        Symbol::Byte(byte) => out.push_reserved(byte),
    }
}
