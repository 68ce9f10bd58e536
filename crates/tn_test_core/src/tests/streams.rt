//! Streams in pieces, the items of which are the same wherever they are cut, and the spelling of items.

use std::alloc::{AllocError, Global};
use std::process::Abort;
use tn_codes::{Command, Verb};
use tn_nvt::{
    Decoder, Item, NvtFault, Params, Refused, Sink, put_byte, put_cmd, put_neg, put_newline,
    put_sub,
};

/// Keeps the items, and for each call how many bytes its run had, or 0.
#[derive(Drop)]
struct Log {
    items: Vec<Item>,
    calls: Vec<usize>,
}

impl Log {
    fn new(alloc: Global) -> Log {
        Log {
            items: Vec::new(alloc),
            calls: Vec::new(alloc),
        }
    }

    fn call(&mut self, count: usize) -> Result<(), Refused> {
        self.calls.push(count).map_err(|_| Refused)
    }
}

impl Sink for Log {
    ghost takes = { λ _ _ _. Unit {0} };

    ghost gives_up = { λ _ _ _. Unit {0} };

    fn run(&mut self, bytes: &[u8]) -> Result<(), Refused> {
        self.call(bytes.len())?;
        for byte in bytes {
            let _refused = self.items.push(Item::Byte(*byte));
        }
        Ok(())
    }

    fn item(&mut self, item: Item) -> Result<(), Refused> {
        self.call(0)?;
        self.items.push(item).map_err(|_| Refused)
    }
}

// The items of a stream that comes in two pieces, as a list, unless memory ran out.
fn items_of(alloc: Global, first: &[u8], second: &[u8]) -> Option<Vec<Item>> {
    let mut decoder = Decoder::new(alloc);
    let mut items = Vec::new(alloc);
    let fed = decoder.feed(first, &mut items);
    let fed = fed.and(decoder.feed(second, &mut items));
    fed.is_ok().then_some(items)
}

// Returns the calls of a sink that reads the stream in two pieces.
fn log_of(alloc: Global, first: &[u8], second: &[u8]) -> Option<Log> {
    let mut decoder = Decoder::new(alloc);
    let mut log = Log::new(alloc);
    let fed = decoder.feed_to(first, &mut log);
    let fed = fed.and(decoder.feed_to(second, &mut log));
    fed.is_ok().then_some(log)
}

// The decoder reads the stream as these items, as a list and into a sink, with a cut at this place.
fn reads_cut(rt: &impl Abort, alloc: Global, first: &[u8], second: &[u8], wanted: &[Item]) {
    if let Some(items) = items_of(alloc, first, second) {
        assert!(rt; items.as_slice() == wanted);
    }
    if let Some(log) = log_of(alloc, first, second) {
        assert!(rt; log.items.as_slice() == wanted);
    }
}

// Reads the stream with a cut at every place.
fn reads(rt: &impl Abort, alloc: Global, stream: &[u8], wanted: &[Item]) {
    for at in 0..=stream.len() {
        reads_cut(rt, alloc, &stream[..at], &stream[at..], wanted);
    }
}

fn sub(alloc: Global, option: u8, bytes: &[u8]) -> Result<Item, AllocError> {
    Ok(Item::Sub(option, Params::from(bytes.to_vec(alloc)?)))
}

#[test]
fn streams_are_read_wherever_they_are_cut(rt: HostRuntime) -> Result<(), AllocError> {
    let alloc = rt.alloc();
    let escaped = [Item::Byte(255), Item::Byte(13)];
    reads(&rt, alloc, b"\xff\xff\r\0", &escaped);
    let will = [Item::Byte(13), Item::Neg(Verb::Will, 1)];
    reads(&rt, alloc, b"\r\xff\xfb\x01", &will);
    reads(&rt, alloc, b"\r\r\0", &[Item::Byte(13), Item::Byte(13)]);
    let last = [Item::Byte(66)];
    reads(&rt, alloc, b"\xff\xf0\xffAB\xff\xfa\xff\xf0", &last);
    let cut = [Item::Neg(Verb::Will, 99)];
    reads(&rt, alloc, b"\xff\xfa\x22\x01\xff\xfb\x63", &cut);
    let ayt = [Item::Cmd(Command::Ayt), Item::Newline];
    reads(&rt, alloc, b"\xff\xfa\x22\x01\xff\xf6\r\n", &ayt);
    let naws = [sub(alloc, 31, &[0, 255, 0, 24])?];
    let size = b"\xff\xfa\x1f\x00\xff\xff\x00\x18\xff\xf0";
    reads(&rt, alloc, size, &naws);
    Ok(())
}

/// Data with two bytes that are no part of a run.
const DATA: &[u8] = b"a\nb\xff\xffc\rd";

/// The places at which these data are cut, and the calls that they make.
const RUNS: &[(usize, &[usize])] = &[
    (0, &[3, 0, 1, 0, 1]),
    (1, &[1, 2, 0, 1, 0, 1]),
    (4, &[3, 0, 1, 0, 1]),
];

#[test]
fn a_run_is_as_long_as_can_be(rt: HostRuntime) {
    let alloc = rt.alloc();
    for &(at, calls) in RUNS {
        let (first, second) = DATA.split_at(DATA.len().min(at));
        if let Some(log) = log_of(alloc, first, second) {
            assert!(rt; log.calls.as_slice() == calls, "{at}");
        }
    }
}

#[test]
fn items_have_one_spelling(rt: HostRuntime) -> Result<(), AllocError> {
    let mut out = Vec::new(rt.alloc());
    put_byte(255, &mut out)?;
    put_byte(13, &mut out)?;
    put_byte(97, &mut out)?;
    put_newline(&mut out)?;
    put_cmd(Command::Ayt, &mut out)?;
    put_neg(Verb::DoIt, 34, &mut out)?;
    put_sub(31, &[0, 255, 0, 24], &mut out)?;
    let wanted = b"\xff\xff\r\0a\r\n\xff\xf6\xff\xfd\x22\xff\xfa\x1f\x00\xff\xff\x00\x18\xff\xf0";
    assert!(rt; out.as_slice() == wanted.as_slice());
    Ok(())
}

// With an allocation refused: the items before it are kept, and the decoder has failed.
#[test]
fn a_decoder_fails_without_memory(rt: HostRuntime) -> Result<(), AllocError> {
    let alloc = rt.alloc();
    let stream = b"a\rb\xff\xfa\x22\x01\x07\xff\xf0\xff\xf6\xff\xfb\x22c";
    let wanted = [
        Item::Byte(97),
        Item::Byte(13),
        Item::Byte(98),
        sub(alloc, 34, &[1, 7])?,
        Item::Cmd(Command::Ayt),
        Item::Neg(Verb::Will, 34),
        Item::Byte(99),
    ];
    fails_without_memory(&rt, alloc, stream, &wanted);
    Ok(())
}

fn fails_without_memory(rt: &impl Abort, alloc: Global, stream: &[u8], wanted: &[Item]) {
    let mut decoder = Decoder::new(alloc);
    let mut items = Vec::new(alloc);
    let fed = decoder.feed(stream, &mut items);
    let count = items.len();
    assert!(rt; wanted.starts_with(&items));
    if fed.is_err() {
        assert!(rt; fed == Err(NvtFault::Memory));
        assert!(rt; decoder.feed(b"d", &mut items) == Err(NvtFault::Failed));
        assert!(rt; items.len() == count);
    }
}
