//! Scripts with their output, and the line at which they stop.

use super::programs::Narrow;
use crate::models::page::number_of;
use std::alloc::{AllocError, Global};
use std::process::Abort;
use tn_cli::{CliFault, run_world};

fn world(alloc: Global, script: &[u8], output: &mut Vec<u8>) -> Result<(), CliFault> {
    let mut reader = script;
    run_world(alloc, &mut reader, output)
}

// If an allocation is refused, nothing is printed, or a prefix of what would have been, up to the
// line whose event was refused.
fn is_refused(ended: Result<(), CliFault>, printed: &[u8], text: &[u8]) -> bool {
    match ended {
        Err(CliFault::Memory) => printed.is_empty(),
        Err(CliFault::World(_)) => text.starts_with(printed),
        _ => false,
    }
}

fn tries(
    rt: &impl Abort,
    alloc: Global,
    script: &[u8],
    outcome: Result<(), CliFault>,
    text: &[u8],
) -> bool {
    let mut output = Vec::new(alloc);
    let ended = world(alloc, script, &mut output);
    if ended == outcome && output.as_slice() == text {
        return true;
    }
    assert!(rt;
        is_refused(ended, &output, text),
        "{ended:?} after {output:?}"
    );
    false
}

// If an allocation is refused, a second try is compared, for which there is memory.
fn plays(
    rt: &impl Abort,
    alloc: Global,
    script: &[u8],
    outcome: Result<(), CliFault>,
    text: &[u8],
) {
    let done = tries(rt, alloc, script, outcome, text);
    assert!(rt; done || tries(rt, alloc, script, outcome, text));
}

/// A text in which `254*61` between bars stands for this number of copies of these digits.
pub(super) fn whole(alloc: Global, text: &str) -> Result<Vec<u8>, AllocError> {
    let mut bytes = Vec::new(alloc);
    for part in text.split('|') {
        let (count, digits) = part.split_once('*').unwrap_or(("1", part));
        for _ in 0..number_of(count) {
            bytes.extend_from_slice(digits.as_bytes())?;
        }
    }
    Ok(bytes)
}

// A script ends so and prints this, if there is memory for both.
fn prints(
    rt: &impl Abort,
    alloc: Global,
    script: &str,
    outcome: Result<(), CliFault>,
    text: &str,
) -> Result<(), AllocError> {
    let script = whole(alloc, script)?;
    plays(rt, alloc, &script, outcome, &whole(alloc, text)?);
    Ok(())
}

/// Each script ends well, and prints this.
pub(super) fn print_all(rt: &impl Abort, alloc: Global, scripts: &[(&str, &str)]) {
    for (script, text) in scripts {
        let _refused = prints(rt, alloc, script, Ok(()), text);
    }
}

const SCRIPTS: &[(&str, &str)] = &[
    // A signal overtakes a line.
    (
        "settle\nwish local\nsettle\nmark\nkey 610304\nflight\nto-server 5\ntake\ntake\ntake\n",
        "mark true\nto-server fff461ffec\nto-client -\nsignal int\ntext 61\nnone\n",
    ),
    // A proposal crosses the table.
    (
        "to-client 15\nto-server 24\npropose ec 08\nflight\nsettle\nmark\nkey 61080d\nsettle\ntake\n",
        "to-server fffa22030a0208fff0\n\
         to-client fffa220303020307021c08020409021a0a027f0b0215110000120000fff0\n\
         mark true\ntext 0a\n",
    ),
    // A second character closes a line.
    (
        "settle\nset forw2 3b\nsettle\nwish local\nsettle\nmark\nkey 613b62043b\nflight\nsettle\n\
         take\ntake\ntake\n",
        "mark true\nto-server 613b62ffec3b\nto-client -\ntext 613b\ntext 62\ntext 3b\n",
    ),
    // A world opens and settles.
    (
        "mark\nsettle\nmark\nflight\n",
        "mark false\nmark true\nto-server -\nto-client -\n",
    ),
    // A request is answered.
    (
        "settle\nwish local\nflight\nto-client 10\nflight\n",
        "to-server -\nto-client fffa220103fff0fffc01\nto-server fffa220107fff0fffe01\nto-client -\n",
    ),
    // An echo is pulled.
    (
        "settle\nmark\nkey 617f0d\nflight\nsettle\npull 99\nflight\nsettle\nshown\ntake\n",
        "mark true\nto-server 617f0d00\nto-client -\nto-server -\nto-client 610820080d0a\n\
         shown 610820080d0a\ntext 0a\n",
    ),
    // A mode changes between lines.
    (
        "settle\nmark\nwish local\nkey 610d\nsettle\nkey 620d\nsettle\ntake\ntake\n",
        "mark true\ntext 610a\ntext 620a\n",
    ),
    // Each event of the server has its line.
    (
        "settle\nwrite 68690a\npull 0001000000\nflight\nto-client 1\nshown\n",
        "to-server -\nto-client 68690d0a\nshown 68\n",
    ),
    ("shown\n", "shown -\n"),
    (
        "settle\nwish local\nsettle\nwish remote\nflight\n",
        "to-server -\nto-client fffa220100fff0fffb01\n",
    ),
    (
        "settle\nwish local\nsettle\necho off\nflight\nsettle\necho on\nflight\n",
        "to-server -\nto-client fffb01\nto-server -\nto-client fffc01\n",
    ),
    (
        "settle\nset ec 08\nset el ff\nflight\n",
        "to-server -\nto-client fffa22030a0208fff0fffa22030b0000fff0\n",
    ),
    (
        "settle\nserver-stops\nkey 61\nwrite 61\npull 9\nsettle\nflight\ntake\n",
        "to-server 61\nto-client -\nnone\n",
    ),
    // Each event of the client has its line.
    (
        "settle\nresize 255 24\nflight\nsettle\nresize 65535 0\nflight\n",
        "to-server fffa1f00ffff0018fff0\nto-client -\n\
         to-server fffa1fffffffff0000fff0\nto-client -\n",
    ),
    (
        "settle\npropose ip 01\npropose abort 01\npropose eof 01\npropose susp 01\nflight\n",
        "to-server fffa2203030201fff0fffa2203070201fff0fffa2203080201fff0fffa2203090201fff0\n\
         to-client -\n",
    ),
    (
        "settle\npropose ec 01\npropose el 01\npropose forw1 ff\npropose forw2 3b\nflight\n",
        "to-server fffa22030a0201fff0fffa22030b0201fff0fffa2203110000fff0fffa220312023bfff0\n\
         to-client -\n",
    ),
    (
        "settle\nwrite 61\npull 9\nclient-stops\nkey 61\nsettle\nflight\n",
        "to-server -\nto-client 61\n",
    ),
];

#[test]
fn scripts_print_what_comes_of_them(rt: HostRuntime) {
    print_all(&rt, rt.alloc(), SCRIPTS);
}

const STOPS: &[(&str, Result<(), CliFault>, &str)] = &[
    ("mark\nbogus\n", Err(CliFault::Script(2)), "mark false\n"),
    ("set el 7f\n", Err(CliFault::World(1)), ""),
    (
        "\ntake\n\n\nbogus\ntake",
        Err(CliFault::Script(5)),
        "none\n",
    ),
    (
        "take\n\nset el 7f\nbogus\n",
        Err(CliFault::World(3)),
        "none\n",
    ),
    ("", Ok(()), ""),
    ("\n\n", Ok(()), ""),
    ("take\n\ntake", Ok(()), "none\nnone\n"),
    // A mask before LINEMODE is refused, and one of 33 octets is none.
    ("take\nmask 08\n", Err(CliFault::World(2)), "none\n"),
    (
        "settle\ntake\nmask |33*08|\n",
        Err(CliFault::Script(3)),
        "none\n",
    ),
    ("settle\ntake\nmask |32*08|\n", Ok(()), "none\n"),
];

#[test]
fn a_script_stops_at_its_line(rt: HostRuntime) {
    for (script, outcome, text) in STOPS {
        let _refused = prints(&rt, rt.alloc(), script, *outcome, text);
    }
}

#[test]
fn other_lines_are_no_commands(rt: HostRuntime) {
    let alloc = rt.alloc();
    let lines = "bogus|TAKE|take | take|take\r| |  |settle 1|\
                 key|key |key 6|key 616|key 6A|key 6g|key  61|key 61 62|write|write 61 |\
                 to-server|to-server |to-server x|to-server -1|to-server +1|to-server 1000001|\
                 to-client 99999999999999999999|pull 1 2|pull 0x1|\
                 wish|wish both|echo|echo 1|mask|mask on|mask 0|\
                 resize 80|resize 80 65536|resize 65536 24|resize 80  24|resize 80 24 |resize 8 2 1|\
                 set ip|set synch 03|set ip 0304|set ip 3|propose ip 3 4|propose forw3 03";
    for line in lines.split('|') {
        stops_there(&rt, alloc, line.as_bytes());
    }
    for line in [b"\xff".as_slice(), b"key \xff", b"to-server \xff"] {
        stops_there(&rt, alloc, line);
    }
}

fn stops_there(rt: &impl Abort, alloc: Global, line: &[u8]) {
    let Ok(script) = after_a_take(alloc, line) else {
        return;
    };
    plays(rt, alloc, &script, Err(CliFault::Script(2)), b"none\n");
}

fn after_a_take(alloc: Global, line: &[u8]) -> Result<Vec<u8>, AllocError> {
    let mut script = Vec::from_slice(alloc, b"take\n")?;
    script.extend_from_slice(line)?;
    script.extend_from_slice(b"\ntake\n")?;
    Ok(script)
}

// A writer takes four bytes, and then fails.
fn fails_to_write(rt: &impl Abort, alloc: Global, mut script: &[u8]) {
    let mut writer = Narrow::new(alloc, 4, true);
    let ended = run_world(alloc, &mut script, &mut writer);
    assert!(rt; ended == Err(CliFault::Write) || ended == Err(CliFault::Memory));
    assert!(rt; b"mark".starts_with(writer.taken.as_slice()));
}

#[test]
fn the_output_before_a_fault_may_fail_to_be_written(rt: HostRuntime) {
    let alloc = rt.alloc();
    fails_to_write(&rt, alloc, b"mark\nbogus\n");
    fails_to_write(&rt, alloc, b"mark\nset el 7f\n");
    fails_to_write(&rt, alloc, b"mark\n");
}
