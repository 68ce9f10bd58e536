//! Command lines, with what each asks for, or why it is not accepted.

use std::alloc::{AllocError, Global};
use std::process::Abort;
use tn_cli::{Asked, WordsFault, read_words};

fn read_line(alloc: Global, line: &str) -> Result<Asked, WordsFault> {
    let mut words = Vec::new(alloc);
    for word in line.split(' ') {
        if words.push(word).is_err() {
            return Err(WordsFault::Memory);
        }
    }
    read_words(alloc, &words)
}

// Whether the line asks for what is printed so. Want of memory is an ordinary answer.
fn asks(alloc: Global, line: &str, wanted: &str) -> bool {
    match read_line(alloc, line) {
        Ok(asked) => is_printed(alloc, &asked, wanted),
        Err(fault) => matches!(fault, WordsFault::Memory),
    }
}

fn is_printed(alloc: Global, asked: &Asked, wanted: &str) -> bool {
    match format!(in alloc; "{asked:?}") {
        Ok(text) => text.as_str() == wanted,
        Err(_) => true,
    }
}

/// Lines, with what each asks for.
const ASKED: &[(&str, &str)] = &[
    ("tn local", "Local"),
    ("tn replay", "Replay"),
    ("tn decode", "Decode"),
    ("tn world", "World"),
    (
        "tn serve --port 2323",
        "Serve(ServeWords { hosts: [\"127.0.0.1\"], socket: Socket { port: 2323, handed: None }, \
         sessions: 8, per_host: None, count: Some(1), until: None, ticks: 0, line_limit: Limit { \
         bytes: 255 }, idle: None, longest: 0, drain: 5, dial: 10, proxied: false, local: false, \
         line_clients: false, verbose: false, logfmt: false, metrics: None, banner: None, to: None, \
         line_end: Lf, ends_cut: false, sends_signals: false, to_telnet: false })",
    ),
    (
        "tn serve --limit=64 --count 1000000 --ticks=1000 --host ::1 --line 4095 --idle 86400 --until \
         /run/end --drain 86399 --dial 1 --proxy --per-host 2 --longest=3600 --local --line-clients \
         --verbose --notes logfmt --metrics /m --banner /b --port=2323 --to [::1]:7 --crlf --line-cut end \
         --signals send --to-telnet",
        "Serve(ServeWords { hosts: [\"::1\"], socket: Socket { port: 2323, handed: None }, \
         sessions: 64, per_host: Some(2), count: Some(1000000), until: Some(\"/run/end\"), ticks: \
         1000, line_limit: Limit { bytes: 4095 }, idle: Some(86400), longest: 3600, drain: 86399, \
         dial: 1, proxied: true, local: true, line_clients: true, verbose: true, logfmt: true, \
         metrics: Some(\"/m\"), banner: Some(\"/b\"), to: Some(Address { host: \"::1\", port: 7 }), \
         line_end: CrLf, ends_cut: true, sends_signals: true, to_telnet: true })",
    ),
    (
        "tn serve --forever --host unix:/a --host=unix:b --cr --to unix:/s --line-cut=send --signals \
         act --notes text",
        "Serve(ServeWords { hosts: [\"unix:/a\", \"unix:b\"], socket: Socket { port: 0, handed: \
         None }, sessions: 8, per_host: None, count: None, until: None, ticks: 0, line_limit: Limit \
         { bytes: 255 }, idle: None, longest: 0, drain: 5, dial: 10, proxied: false, local: false, \
         line_clients: false, verbose: false, logfmt: false, metrics: None, banner: None, to: \
         Some(Address { host: \"unix:/s\", port: 0 }), line_end: Cr, ends_cut: false, \
         sends_signals: false, to_telnet: false })",
    ),
    (
        "tn serve --port 2323 --host unix:/a --host localhost --per-host 0 --to h:65535",
        "Serve(ServeWords { hosts: [\"unix:/a\", \"localhost\"], socket: Socket { port: 2323, \
         handed: None }, sessions: 8, per_host: Some(0), count: Some(1), until: None, ticks: 0, \
         line_limit: Limit { bytes: 255 }, idle: None, longest: 0, drain: 5, dial: 10, proxied: \
         false, local: false, line_clients: false, verbose: false, logfmt: false, metrics: None, \
         banner: None, to: Some(Address { host: \"h\", port: 65535 }), line_end: Lf, ends_cut: \
         false, sends_signals: false, to_telnet: false })",
    ),
    (
        "tn serve --listen-fd 3 --forever",
        "Serve(ServeWords { hosts: [\"127.0.0.1\"], socket: Socket { port: 0, handed: Some(3) }, \
         sessions: 8, per_host: None, count: None, until: None, ticks: 0, line_limit: Limit { \
         bytes: 255 }, idle: None, longest: 0, drain: 5, dial: 10, proxied: false, local: false, \
         line_clients: false, verbose: false, logfmt: false, metrics: None, banner: None, to: None, \
         line_end: Lf, ends_cut: false, sends_signals: false, to_telnet: false })",
    ),
    (
        "tn serve --stdin",
        "Serve(ServeWords { hosts: [\"127.0.0.1\"], socket: Socket { port: 0, handed: Some(0) }, \
         sessions: 8, per_host: None, count: Some(1), until: None, ticks: 0, line_limit: Limit { \
         bytes: 255 }, idle: None, longest: 0, drain: 5, dial: 10, proxied: false, local: false, \
         line_clients: false, verbose: false, logfmt: false, metrics: None, banner: None, to: None, \
         line_end: Lf, ends_cut: false, sends_signals: false, to_telnet: false })",
    ),
    (
        "tn connect -p7 --width 65535 --height 0 --escape ^a -q 86400 -w 7 --timeout 5 -6 --bind ::1 \
         --log l --quiet --keys standard --return crlf",
        "Connect(ConnectWords { host: \"127.0.0.1\", port: Number(7), width: Some(65535), height: \
         Some(0), line_limit: Limit { bytes: 255 }, escape: Key(1), characters: Standard, returns: \
         Some(CrLf), mode: Auto, history: true, line_mode_limit: Limit { bytes: 4095 }, trace: None, \
         log: Some(\"l\"), log_times: false, text: false, wait: 86400, patience: 7, dialing: Dialing \
         { family: Some(Ipv6), source: Some(::1), seconds: 5 }, quiet: true, plain: None })",
    ),
    (
        "tn connect h",
        "Connect(ConnectWords { host: \"h\", port: Number(23), width: None, height: None, line_limit: \
         Limit { bytes: 255 }, escape: Key(29), characters: Own, returns: None, mode: Auto, history: \
         true, line_mode_limit: Limit { bytes: 4095 }, trace: None, log: None, log_times: false, \
         text: false, wait: 0, patience: 0, dialing: Dialing { family: None, source: None, seconds: 0 \
         }, quiet: false, plain: None })",
    ),
    (
        "tn connect --escape none --port 7 ::1 --trace a/b --keys own --mode auto",
        "Connect(ConnectWords { host: \"::1\", port: Number(7), width: None, height: None, \
         line_limit: Limit { bytes: 255 }, escape: None, characters: Own, returns: None, mode: Auto, \
         history: true, line_mode_limit: Limit { bytes: 4095 }, trace: Some(\"a/b\"), log: None, \
         log_times: false, text: false, wait: 0, patience: 0, dialing: Dialing { family: None, \
         source: None, seconds: 0 }, quiet: false, plain: None })",
    ),
    (
        "tn connect h smtp --text --log l --log-times --mode char --no-history --return lf -4 --bind \
         127.0.0.1",
        "Connect(ConnectWords { host: \"h\", port: Service(\"smtp\"), width: None, height: None, \
         line_limit: Limit { bytes: 255 }, escape: Key(29), characters: Own, returns: Some(Lf), mode: \
         Char, history: false, line_mode_limit: Limit { bytes: 4095 }, trace: None, log: Some(\"l\"), \
         log_times: true, text: true, wait: 0, patience: 0, dialing: Dialing { family: Some(Ipv4), \
         source: Some(127.0.0.1), seconds: 0 }, quiet: false, plain: None })",
    ),
    (
        "tn connect h --line 300 --return crnul --again 5",
        "Connect(ConnectWords { host: \"h\", port: Number(23), width: None, height: None, line_limit: \
         Limit { bytes: 300 }, escape: Key(29), characters: Own, returns: Some(CrNul), mode: Auto, \
         history: true, line_mode_limit: Limit { bytes: 300 }, trace: None, log: None, log_times: \
         false, text: false, wait: 0, patience: 0, dialing: Dialing { family: None, source: None, \
         seconds: 0 }, quiet: false, plain: None })",
    ),
    (
        "tn connect h 25 --plain",
        "Connect(ConnectWords { host: \"h\", port: Number(25), width: None, height: None, line_limit: \
         Limit { bytes: 4095 }, escape: Key(29), characters: Own, returns: None, mode: Auto, history: \
         true, line_mode_limit: Limit { bytes: 4095 }, trace: None, log: None, log_times: false, \
         text: false, wait: 0, patience: 0, dialing: Dialing { family: None, source: None, seconds: 0 \
         }, quiet: false, plain: Some(CrLf) })",
    ),
    (
        "tn connect h 25 --plain --lf --line 255",
        "Connect(ConnectWords { host: \"h\", port: Number(25), width: None, height: None, line_limit: \
         Limit { bytes: 255 }, escape: Key(29), characters: Own, returns: None, mode: Auto, history: \
         true, line_mode_limit: Limit { bytes: 255 }, trace: None, log: None, log_times: false, text: \
         false, wait: 0, patience: 0, dialing: Dialing { family: None, source: None, seconds: 0 }, \
         quiet: false, plain: Some(Lf) })",
    ),
    (
        "tn connect h 25 --plain --cr --quiet",
        "Connect(ConnectWords { host: \"h\", port: Number(25), width: None, height: None, line_limit: \
         Limit { bytes: 4095 }, escape: Key(29), characters: Own, returns: None, mode: Auto, history: \
         true, line_mode_limit: Limit { bytes: 4095 }, trace: None, log: None, log_times: false, \
         text: false, wait: 0, patience: 0, dialing: Dialing { family: None, source: None, seconds: 0 \
         }, quiet: true, plain: Some(Cr) })",
    ),
    ("tn connect --port 7", AT_PORT_7),
    ("tn connect 127.0.0.1 7", AT_PORT_7),
    ("tn connect 127.0.0.1:7", AT_PORT_7),
    ("tn connect [127.0.0.1]:7", AT_PORT_7),
    ("tn connect [127.0.0.1] -p 7", AT_PORT_7),
];

/// A connection to port 7 of this machine, without any option.
const AT_PORT_7: &str =
    "Connect(ConnectWords { host: \"127.0.0.1\", port: Number(7), width: None, height: None, \
     line_limit: Limit { bytes: 255 }, escape: Key(29), characters: Own, returns: None, mode: \
     Auto, history: true, line_mode_limit: Limit { bytes: 4095 }, trace: None, log: None, \
     log_times: false, text: false, wait: 0, patience: 0, dialing: Dialing { family: None, \
     source: None, seconds: 0 }, quiet: false, plain: None })";

#[test]
fn words_ask_for_what_they_say(rt: HostRuntime) {
    for (line, wanted) in ASKED {
        assert!(rt; asks(rt.alloc(), line, wanted), "{line}");
    }
}

/// Lines that ask for no run.
const REFUSED: &[&str] = &[
    "tn",
    "tn frobnicate",
    "tn local x",
    "tn world x",
    "tn serve",
    "tn serve --port 0",
    "tn serve --port 7 --port 0",
    "tn serve --port 7 --port 65536",
    "tn serve --port 7 --limit 0",
    "tn serve --port 7 --limit 65",
    "tn serve --port 7 --per-host 65",
    "tn serve --port 7 --longest -1",
    "tn serve --port 7 --longest 86401",
    "tn serve --port 7 --longest 1 --longest 1",
    "tn serve --port 7 --to h:1 --dial 0",
    "tn serve --port 7 --to h:1 --dial 86401",
    "tn serve --port 7 --to h:1 --dial 1 --dial 1",
    "tn serve --port 7 --count 0",
    "tn serve --port 7 --count 1000001",
    "tn serve --port 7 --ticks 1001",
    "tn connect h --return cr",
    "tn connect h --plain --return crlf",
    "tn serve --port 7 --to h",
    "tn serve --port 7 --to :7",
    "tn serve --port 7 --to h:",
    "tn serve --port 7 --to h:0",
    "tn serve --port 7 --to h:65536",
    "tn serve --port 7 --to h:7x",
    "tn serve --port 7 --to [::1:7",
    "tn serve --port 7 --to []:7",
    "tn serve --port 7 --crlf",
    "tn serve --port 7 --cr",
    "tn serve --port 7 --to h:7 --cr --crlf",
    "tn serve --port 7 --line-cut send",
    "tn serve --port 7 --to h:7 --line-cut End",
    "tn serve --port 7 --to h:7 --line-cut",
    "tn serve --port 7 --to h:7 --line-cut end --signals send --line-cut end --signals send",
    "tn serve --port 7 --until=",
    "tn serve --port 7 --until a --until b",
    "tn serve --port 7 --forever --count 2",
    "tn serve --port 7 --line 254",
    "tn serve --port 7 --line 4096",
    "tn serve --port 7 --ticks -1",
    "tn connect",
    "tn connect --port x",
    "tn connect --port 7 --width 65536",
    "tn connect h --port 0",
    "tn connect h 7x",
    "tn connect h smtp --port 7",
    "tn connect h:7 smtp",
    "tn connect h -- -",
    "tn connect h 0",
    "tn connect h: 7",
    "tn connect h:7 7",
    "tn connect h:7 --port 7",
    "tn connect h 7 -p 7",
    "tn connect h:65536",
    "tn connect [::1",
    "tn connect [::1]7",
    "tn connect h 7 8",
    "tn connect h -q 86401",
    "tn connect h -4 -6",
    "tn connect h -4 --ipv4",
    "tn connect h --bind h",
    "tn connect h --bind 127.0.0.1:7",
    "tn connect h --timeout 86401",
    "tn connect h --keys ours",
    "tn connect h --keys own --keys own",
    "tn connect h --lf",
    "tn connect h --plain --lf --cr",
    "tn connect h --escape ^`",
    "tn connect h --escape ^@",
    "tn connect h --escape ^",
    "tn connect h --escape None",
    "tn decode x",
    "tn serve --stdin --count 2",
    "tn serve --stdin --forever",
    "tn serve --stdin --port 7",
    "tn serve --listen-fd 2",
    "tn serve --listen-fd 1024",
    "tn serve --listen-fd 3 --port 7",
    "tn serve --host unix:/a --port 7",
    "tn serve --host unix:/a --host h",
    "tn serve --port 7 --idle 86401",
    "tn serve --port 7 --drain 86401",
    "tn serve --port 7 --notes json",
    "tn serve --port 7 --metrics=",
    "tn serve --port 7 --banner=",
    "tn serve --port 7 --to unix:",
    "tn serve --port 7 --signals act",
    "tn serve --port 7 --to-telnet",
    "tn serve --port 7 --to h:7 --to-telnet=yes",
    "tn serve --port 7 --to h:7 --signals ask",
    "tn connect h --plain --width 80",
    "tn connect h --plain --height 24",
    "tn connect h --plain --mode char",
    "tn connect h --cr",
    "tn connect h --mode line",
    "tn connect h --again 0",
    "tn connect h -w 86401",
    "tn connect h --line 254",
    "tn connect h --line 4096",
    "tn connect h --escape ^J",
    "tn connect h --escape ^m",
    "tn connect h --width -1",
];

fn is_refused(read: &Result<Asked, WordsFault>) -> bool {
    matches!(read, Err(WordsFault::Usage(_) | WordsFault::Memory))
}

#[test]
fn other_words_are_refused(rt: HostRuntime) {
    for line in REFUSED {
        assert!(rt; is_refused(&read_line(rt.alloc(), line)), "{line}");
    }
}

fn is_help(read: Result<Asked, WordsFault>) -> bool {
    match read {
        Err(WordsFault::Help(text)) => text.as_str().contains("Usage: tn replay"),
        Err(WordsFault::Memory) => true,
        Err(WordsFault::Usage(_) | WordsFault::Version) | Ok(_) => false,
    }
}

#[test]
fn words_ask_for_help(rt: HostRuntime) {
    assert!(rt; is_help(read_words(rt.alloc(), &["tn", "replay", "--help"])));
}

/// Lines that are refused, with what is told of them.
const TOLD: &[(&str, &str)] = &[
    ("tn local x", "unexpected argument 'x' found"),
    (
        "tn connect --port x",
        "invalid value 'x' for '--port <PORT>'",
    ),
    ("tn connect", "HOST, or --port <PORT>"),
    ("tn connect h:7 7", "more than one port is given"),
    ("tn connect h:x", "invalid value 'h:x' for '[HOST]'"),
    ("tn connect h --cr", "need '--plain'"),
    ("tn serve -p 7 --cr", "need '--to'"),
    (
        "tn serve -p 7 --line-cut end --signals send",
        "'--line-cut' needs '--to'",
    ),
    (
        "tn serve -p 7 --to h:7 --line-cut all",
        "invalid value 'all' for '--line-cut <WHAT>'",
    ),
    ("tn serve -p 7 --until=", "needs a path of 1 to 4095 bytes"),
    (
        "tn serve -p 7 --count 1 --forever",
        "'--count' and '--forever' exclude",
    ),
    (
        "tn connect h --escape ^1",
        "invalid value '^1' for '--escape <KEY>'",
    ),
    ("tn serve", "--port <PORT>, --listen-fd <FD> or --stdin"),
    (
        "tn serve --stdin -p 7",
        "'--port', '--listen-fd' and '--stdin' exclude each other",
    ),
    (
        "tn serve --host unix:/a -p 7",
        "'--port' needs a '--host' that is no path",
    ),
    ("tn serve --stdin --forever", "'--stdin' is one connection"),
    (
        "tn serve -p 7 --notes json",
        "invalid value 'json' for '--notes <FORM>'",
    ),
    (
        "tn serve -p 7 --metrics=",
        "'--metrics <FILE>' needs a path",
    ),
    ("tn serve -p 7 --banner=", "'--banner <FILE>' needs a path"),
    ("tn serve -p 7 --signals act", "'--signals' needs '--to'"),
    ("tn serve -p 7 --to-telnet", "'--to-telnet' needs '--to'"),
    (
        "tn serve -p 7 --to h:7 --signals ask",
        "invalid value 'ask' for '--signals <WHAT>'",
    ),
    (
        "tn serve -p 7 --to h",
        "invalid value 'h' for '--to <HOST:PORT>'",
    ),
    ("tn serve -p 7 --limit 65", "65 is not in 1..=64"),
    (
        "tn connect h --plain --mode char",
        "'--plain' excludes '--mode'",
    ),
    (
        "tn connect h --mode line",
        "invalid value 'line' for '--mode <HOW>'",
    ),
    (
        "tn connect h --return cr",
        "invalid value 'cr' for '--return <BYTES>'",
    ),
    (
        "tn connect h --keys ours",
        "invalid value 'ours' for '--keys <WHOSE>'",
    ),
    ("tn connect h -4 -6", "'-4' and '-6' exclude each other"),
    (
        "tn connect h --bind x",
        "invalid value 'x' for '--bind <ADDRESS>'",
    ),
    ("tn connect h 0", "invalid value '0' for '[PORT]'"),
];

fn tells(read: Result<Asked, WordsFault>, part: &str) -> bool {
    match read {
        Err(WordsFault::Memory) => true,
        Err(fault) => match fault.detail() {
            Some(detail) => detail.contains(part) && detail.ends_with("try '--help'.\n"),
            None => false,
        },
        Ok(_) => false,
    }
}

#[test]
fn what_is_wrong_is_told(rt: HostRuntime) {
    for (line, part) in TOLD {
        assert!(rt; tells(read_line(rt.alloc(), line), part), "{line}");
    }
}

#[test]
fn words_ask_for_the_version(rt: HostRuntime) {
    let read = read_words(rt.alloc(), &["tn", "--version"]);
    assert!(rt; matches!(&read, Err(WordsFault::Version | WordsFault::Memory)));
}

// Whether a path of that many bytes is taken.
fn takes_path(alloc: Global, length: usize) -> Result<bool, AllocError> {
    let path = "p".repeat(alloc, length)?;
    let read = read_words(alloc, &["tn", "serve", "-p", "7", "--until", path.as_str()]);
    Ok(matches!(&read, Ok(_) | Err(WordsFault::Memory)))
}

#[test]
fn a_path_has_at_most_4095_bytes(rt: HostRuntime) -> Result<(), AllocError> {
    assert!(rt; takes_path(rt.alloc(), 4_095)?);
    assert!(rt; !takes_path(rt.alloc(), 4_096)?);
    Ok(())
}
