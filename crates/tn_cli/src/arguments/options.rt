//! The names of the subcommands and of their options, and the ranges of their numbers.

pub(crate) const LOCAL: &str = "local";

pub(crate) const REPLAY: &str = "replay";

pub(crate) const DECODE: &str = "decode";

pub(crate) const WORLD: &str = "world";

pub(crate) const SERVE: &str = "serve";

pub(crate) const CONNECT: &str = "connect";

/// An option that takes a whole number: its name, its least and its greatest value.
#[derive(Clone, Copy)]
pub(crate) struct Whole {
    pub(crate) name: &'static str,
    pub(crate) least: u32,
    pub(crate) most: u32,
}

pub(crate) const PORT: Whole = Whole {
    name: "port",
    least: 1,
    most: 65_535,
};

/// The first descriptor after the standard streams, and the last that systemd could pass.
pub(crate) const LISTEN_FD: Whole = Whole {
    name: "listen-fd",
    least: 3,
    most: 1_023,
};

pub(crate) const STDIN: &str = "stdin";

pub(crate) const LIMIT: Whole = Whole {
    name: "limit",
    least: 1,
    most: 64,
};

/// As many as there may be of all; 0 stands for that too.
pub(crate) const PER_HOST: Whole = Whole {
    name: "per-host",
    least: 0,
    most: LIMIT.most,
};

pub(crate) const COUNT: Whole = Whole {
    name: "count",
    least: 1,
    most: 1_000_000,
};

pub(crate) const TICKS: Whole = Whole {
    name: "ticks",
    least: 0,
    most: 1_000,
};

pub(crate) const LINE: Whole = Whole {
    name: "line",
    least: 255,
    most: 4_095,
};

/// At most a day.
pub(crate) const IDLE: Whole = Whole {
    name: "idle",
    least: 0,
    most: 86_400,
};

/// At most a day.
pub(crate) const LONGEST: Whole = Whole {
    name: "longest",
    least: 0,
    most: 86_400,
};

/// At most a day.
pub(crate) const DRAIN: Whole = Whole {
    name: "drain",
    least: 0,
    most: 86_400,
};

/// At most a day.
pub(crate) const DIAL: Whole = Whole {
    name: "dial",
    least: 1,
    most: 86_400,
};

pub(crate) const WIDTH: Whole = Whole {
    name: "width",
    least: 0,
    most: 65_535,
};

pub(crate) const HEIGHT: Whole = Whole {
    name: "height",
    least: 0,
    most: 65_535,
};

/// The name of the place of the port after the host.
pub(crate) const AT_PLACE: &str = "at";

/// The port that stands there.
pub(crate) const AT: Whole = Whole {
    name: AT_PLACE,
    least: 1,
    most: 65_535,
};

/// At most a day.
pub(crate) const WAIT: Whole = Whole {
    name: "wait",
    least: 0,
    most: 86_400,
};

/// At most a day.
pub(crate) const PATIENCE: Whole = Whole {
    name: "patience",
    least: 0,
    most: 86_400,
};

/// At most a day.
pub(crate) const TIMEOUT: Whole = Whole {
    name: "timeout",
    least: 0,
    most: 86_400,
};

/// At most a day.
pub(crate) const AGAIN: Whole = Whole {
    name: "again",
    least: 1,
    most: 86_400,
};

pub(crate) const HOST: &str = "host";

pub(crate) const IPV4: &str = "ipv4";

pub(crate) const IPV6: &str = "ipv6";

pub(crate) const BIND: &str = "bind";

pub(crate) const ESCAPE: &str = "escape";

pub(crate) const KEYS: &str = "keys";

pub(crate) const MODE: &str = "mode";

pub(crate) const NO_HISTORY: &str = "no-history";

pub(crate) const RETURN: &str = "return";

pub(crate) const TRACE: &str = "trace";

pub(crate) const LOG: &str = "log";

pub(crate) const LOG_TIMES: &str = "log-times";

pub(crate) const TEXT: &str = "text";

pub(crate) const LOCALLY: &str = "local";

pub(crate) const LINE_CLIENTS: &str = "line-clients";

pub(crate) const VERBOSE: &str = "verbose";

pub(crate) const PROXIED: &str = "proxy";

pub(crate) const NOTES: &str = "notes";

pub(crate) const METRICS: &str = "metrics";

pub(crate) const BANNER: &str = "banner";

pub(crate) const QUIET: &str = "quiet";

pub(crate) const PLAIN: &str = "plain";

pub(crate) const LF: &str = "lf";

pub(crate) const CR: &str = "cr";

pub(crate) const FOREVER: &str = "forever";

/// At most that many bytes has the path of a file.
pub(crate) const MOST_PATH: usize = 4_095;

pub(crate) const UNTIL: &str = "until";

pub(crate) const TO: &str = "to";

pub(crate) const CRLF: &str = "crlf";

pub(crate) const LINE_CUT: &str = "line-cut";

pub(crate) const SIGNALS: &str = "signals";

pub(crate) const TO_TELNET: &str = "to-telnet";
