//! The options of each subcommand, with what the help says of them.

use crate::arguments::options::{
    AGAIN, BANNER, BIND, COUNT, CR, CRLF, DIAL, DRAIN, ESCAPE, FOREVER, HEIGHT, IDLE, IPV4, IPV6,
    KEYS, LF, LIMIT, LINE, LINE_CLIENTS, LINE_CUT, LISTEN_FD, LOCALLY, LOG, LOG_TIMES, LONGEST,
    METRICS, MODE, NO_HISTORY, NOTES, PATIENCE, PER_HOST, PLAIN, PROXIED, QUIET, RETURN, SIGNALS,
    STDIN, TEXT, TICKS, TIMEOUT, TO, TO_TELNET, TRACE, UNTIL, VERBOSE, WAIT, WIDTH, Whole,
};

/// An option of a subcommand, or a place for a word without a name before it. The value of an option has a name in
/// the help.
#[derive(Clone, Copy)]
pub(crate) enum Choice {
    /// An option without a value: its name and its help text.
    Flag(&'static str, &'static str),
    /// One that has a letter too: its name, the letter and its help text.
    Letter(&'static str, char, &'static str),
    /// An option that takes a text: its name, the name of its value, and its help text.
    Text(&'static str, &'static str, &'static str),
    /// An option for a number that need not be given: the name of its value, and its help text.
    Number(Whole, &'static str, &'static str),
    /// One with a default: the name of its value, the default, and its help text.
    Default(Whole, &'static str, &'static str, &'static str),
    /// The addresses to listen on, with its help text.
    Hosts(&'static str),
    /// A port, by `-p` too, with its help text.
    Port(&'static str),
    /// The place of the host to connect to, with its help text.
    HostPlace(&'static str),
    /// The place of the port that follows it, with its help text.
    PortPlace(&'static str),
    /// Seconds by a letter only: the letter, and its help text.
    Seconds(Whole, char, &'static str),
}

/// Options under a heading of the help, or arguments, which have one of their own.
pub(crate) struct Group {
    pub(crate) heading: Option<&'static str>,
    pub(crate) choices: &'static [Choice],
}

/// The options of `tn serve`.
pub(crate) const SERVE_GROUPS: &[Group] = &[
    Group {
        heading: Some("Where to listen"),
        choices: &[
            Choice::Hosts(
                "Listen on HOST, an address, a name or unix:PATH; may be given more than once",
            ),
            Choice::Port("Listen on PORT, from 1 to 65535"),
            Choice::Number(
                LISTEN_FD,
                "FD",
                "Listen on the socket that the process got at descriptor FD, from 3 to 1023, in place of a port",
            ),
            Choice::Flag(
                STDIN,
                "Serve the one connection that is standard input, in place of a port",
            ),
            Choice::Flag(
                PROXIED,
                "Take the client's address from the line of the PROXY protocol, version 1, with which each connection begins",
            ),
        ],
    },
    Group {
        heading: Some("When to end"),
        choices: &[
            Choice::Number(
                COUNT,
                "COUNT",
                "End after COUNT connections, from 1 to 1000000 [default: 1]",
            ),
            Choice::Flag(FOREVER, "Serve until a signal, in place of a count"),
            Choice::Text(
                UNTIL,
                "FILE",
                "Accept no more once FILE is there, end the sessions as --drain says, and end with status 0",
            ),
            Choice::Default(
                DRAIN,
                "SECONDS",
                "5",
                "Give sessions SECONDS to end, after --until or a signal; with 0 wait for them",
            ),
        ],
    },
    Group {
        heading: Some("Limits"),
        choices: &[
            Choice::Default(
                LIMIT,
                "COUNT",
                "8",
                "Allow COUNT sessions at once, from 1 to 64",
            ),
            Choice::Number(
                PER_HOST,
                "COUNT",
                "Allow COUNT sessions at once from one address, from 1 to 64, or 0 for as many as --limit \
                 [default: half of --limit, or 0 at an address of loopback]",
            ),
            Choice::Number(
                IDLE,
                "SECONDS",
                "End a session whose client types nothing for SECONDS, or with 0 never \
                 [default: 3600, or 0 at an address of loopback]",
            ),
            Choice::Default(
                LONGEST,
                "SECONDS",
                "0",
                "End each session after SECONDS, or with 0 never",
            ),
            Choice::Default(
                LINE,
                "BYTES",
                "255",
                "Allow a line of BYTES with its closing byte, from 255 to 4095",
            ),
        ],
    },
    Group {
        heading: Some("The session"),
        choices: &[
            Choice::Flag(LOCALLY, "Ask the client to edit the lines"),
            Choice::Flag(
                LINE_CLIENTS,
                "Let a client without LINEMODE edit and echo its lines itself",
            ),
            Choice::Default(
                TICKS,
                "COUNT",
                "0",
                "Let a job in the background write `tick` COUNT times, at most 1000",
            ),
        ],
    },
    Group {
        heading: Some("A line service behind it"),
        choices: &[
            Choice::Text(
                TO,
                "HOST:PORT",
                "Join each session to the line service there, or at unix:PATH: lines go to it, and its words come back",
            ),
            Choice::Default(
                DIAL,
                "SECONDS",
                "10",
                "Try to reach the service for SECONDS, while the session runs",
            ),
            Choice::Text(
                BANNER,
                "FILE",
                "Show each client what FILE has when the server starts, before the service's words",
            ),
            Choice::Flag(
                TO_TELNET,
                "Speak Telnet to the service, as a client: send lines as data, and answer its options",
            ),
            Choice::Flag(
                CRLF,
                "End each line to the service with CR LF in place of LF",
            ),
            Choice::Flag(CR, "End each line to the service with CR in place of LF"),
            Choice::Text(
                LINE_CUT,
                "WHAT",
                "If a line may have been truncated, `send` it or `end` the session [default: send]",
            ),
            Choice::Text(
                SIGNALS,
                "WHAT",
                "At ^C, ^\\, ^Z and ^D, `act` as a terminal does or `send` them to the service [default: act]",
            ),
        ],
    },
    Group {
        heading: Some("Reports"),
        choices: &[
            Choice::Flag(
                VERBOSE,
                "Note on standard error who connects and how each session ends",
            ),
            Choice::Text(
                NOTES,
                "FORM",
                "Write notes as `text` or as `logfmt`, in pairs such as session=0 [default: text]",
            ),
            Choice::Text(
                METRICS,
                "FILE",
                "Keep counts of connections, sessions, bytes and lines in FILE, in the text form of Prometheus",
            ),
        ],
    },
];

/// The places and the options of `tn connect`.
pub(crate) const CONNECT_GROUPS: &[Group] = &[
    Group {
        heading: None,
        choices: &[
            Choice::HostPlace(
                "Connect to HOST, a name or an address, HOST:PORT or [ADDRESS]:PORT, or a name in \
                 ~/.config/tn/hosts [default: this machine]",
            ),
            Choice::PortPlace(
                "Connect to PORT, a number or the name of a service such as smtp [default: 23, if HOST is given]",
            ),
        ],
    },
    Group {
        heading: Some("The connection"),
        choices: &[
            Choice::Port("Connect to PORT, in place of the one after HOST or within it"),
            Choice::Letter(IPV4, '4', "Try addresses of IPv4 only"),
            Choice::Letter(IPV6, '6', "Try addresses of IPv6 only"),
            Choice::Text(
                BIND,
                "ADDRESS",
                "Connect from ADDRESS of this machine, to addresses of its family only",
            ),
            Choice::Default(
                TIMEOUT,
                "SECONDS",
                "0",
                "Give up an address that takes no connection for SECONDS; with 0 after 2, and the last one when the system does",
            ),
            Choice::Number(
                AGAIN,
                "SECONDS",
                "At a terminal, connect again SECONDS after a connection was closed, broken or refused, until ^]quit or ^C",
            ),
        ],
    },
    Group {
        heading: Some("Keys and lines"),
        choices: &[
            Choice::Text(
                MODE,
                "HOW",
                "`auto` edits lines at a terminal while the server neither has LINEMODE on nor suppresses GO AHEAD; \
                 `char` sends each key at once then [default: auto]",
            ),
            Choice::Text(
                RETURN,
                "BYTES",
                "Send `crnul`, `crlf` or `lf` at RETURN while LINEMODE is off \
                 [default: crlf after a line that was edited at the terminal, else crnul]",
            ),
            Choice::Text(
                ESCAPE,
                "KEY",
                "Speak to the client itself after KEY, a caret and one of A to Z but J and M, [, \\, ], ^ and _, or `none` \
                 [default: ^]]",
            ),
            Choice::Text(
                KEYS,
                "WHOSE",
                "Take keys by the terminal's `own` special characters, or by the `standard` ones [default: own]",
            ),
            Choice::Flag(NO_HISTORY, "Keep no lines for Up and Down"),
            Choice::Number(
                LINE,
                "BYTES",
                "Allow a line of BYTES with its closing byte, from 255 to 4095 \
                 [default: 255, or 4095 with --plain and while LINEMODE is off]",
            ),
            Choice::Number(
                WIDTH,
                "COLUMNS",
                "Report a window of this width, or with 0 none [default: the terminal's, or 80]",
            ),
            Choice::Number(
                HEIGHT,
                "LINES",
                "Report a window of this height, or with 0 none [default: the terminal's, or 24]",
            ),
        ],
    },
    Group {
        heading: Some("Without Telnet"),
        choices: &[
            Choice::Flag(
                PLAIN,
                "Edit lines here, and send each with CR LF, without Telnet",
            ),
            Choice::Flag(LF, "With --plain, end each line with LF"),
            Choice::Flag(CR, "With --plain, end each line with CR"),
        ],
    },
    Group {
        heading: Some("From a pipe"),
        choices: &[
            Choice::Flag(TEXT, "Take CR LF as one RETURN, and LF as RETURN"),
            Choice::Seconds(
                WAIT,
                'q',
                "At the end of input, wait SECONDS before the server gets the end",
            ),
            Choice::Seconds(
                PATIENCE,
                'w',
                "After that, leave once nothing has come for SECONDS, or with 0 never",
            ),
        ],
    },
    Group {
        heading: Some("Reports"),
        choices: &[
            Choice::Text(LOG, "FILE", "Append to FILE what the screen gets"),
            Choice::Flag(LOG_TIMES, "Put the time, in UTC, before each line of a log"),
            Choice::Text(
                TRACE,
                "FILE",
                "Write to FILE what goes over the connection; what FILE had is kept in FILE~",
            ),
            Choice::Flag(
                QUIET,
                "Print nothing of the connection at a terminal, except for what fails",
            ),
        ],
    },
];
