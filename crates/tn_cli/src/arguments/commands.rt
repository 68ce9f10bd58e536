//! The command line that `tn` takes, as `clap` reads it.

use crate::arguments::choices::{CONNECT_GROUPS, Choice, Group, SERVE_GROUPS};
use crate::arguments::options::{
    AT_PLACE, CONNECT, DECODE, HOST, LOCAL, PORT, REPLAY, SERVE, WORLD, Whole,
};
use clap::builder::ValueParser;
use clap::{Arg, ArgAction, Command, value_parser};
use std::alloc::{AllocError, Global};

/// The version of `tn`, which the line that it prints has too.
const VERSION: &str = "1.2.0";

/// The output of `tn --version`.
pub const VERSION_LINE: &str = "tn 1.2.0\n";

/// The whole command line.
pub(crate) fn tn_command<'a>(alloc: Global) -> Result<Command<'a>, AllocError> {
    let serve = serve_command(alloc)?;
    let connect = connect_command(alloc)?;
    offline_command(alloc)?
        .subcommand(serve)?
        .subcommand(connect)
}

fn bare<'a>(alloc: Global) -> Command<'a> {
    Command::new(alloc, "tn")
        .version(VERSION)
        .about("Telnet with LINEMODE: a line means the same wherever it was edited")
        .after_help("Example:\n  printf 'ab\\177c\\r' | tn local")
        .subcommand_required(true)
}

// A subcommand without options, with its help texts.
fn described<'a>(
    alloc: Global,
    name: &'static str,
    about: &'static str,
    long: &'static str,
    after: &'static str,
) -> Command<'a> {
    Command::new(alloc, name)
        .about(about)
        .long_about(long)
        .after_help(after)
}

// The subcommands that need no network.
fn offline_command<'a>(alloc: Global) -> Result<Command<'a>, AllocError> {
    bare(alloc)
        .subcommand(local_command(alloc))?
        .subcommand(replay_command(alloc))?
        .subcommand(decode_command(alloc))?
        .subcommand(world_command(alloc))
}

fn local_command<'a>(alloc: Global) -> Command<'a> {
    described(
        alloc,
        LOCAL,
        "Print the entries that typed keys give",
        "Read keys from standard input, as they are typed at a terminal with standard settings, and print \
         the entries that its foreground job would read, one a line: `text` and the bytes of a line in \
         hexadecimal, `eof`, `signal int`, `signal quit` or `signal tstp`. A line that no key has closed is \
         not printed.",
        "Example:\n  printf 'ab\\177c\\r' | tn local\n  text 61630a",
    )
}

fn replay_command<'a>(alloc: Global) -> Command<'a> {
    described(
        alloc,
        REPLAY,
        "Print the entries that the keys in a Telnet client's stream give",
        "Read the byte stream of a Telnet client from standard input. Each byte of data is a key, and a new \
         line is the line feed key; commands, WILL, WONT, DO, DONT and subnegotiations are passed over. Print \
         the entries as `tn local` does.",
        "Example:\n  printf '\\377\\377\\r\\0' | tn replay\n  text ff0a",
    )
}

fn decode_command<'a>(alloc: Global) -> Command<'a> {
    described(
        alloc,
        DECODE,
        "Print the items of a Telnet stream",
        "Read one direction of a Telnet byte stream from standard input, and print a line for each item as it \
         comes: data, commands, WILL, WONT, DO, DONT and subnegotiations. What was dropped or is left unread \
         is printed at the end, on standard error.",
        "Example:\n  printf 'ls\\377\\373\\042' | tn decode",
    )
}

fn world_command<'a>(alloc: Global) -> Command<'a> {
    described(
        alloc,
        WORLD,
        "Run a script of a server, a client and the bytes between them",
        "Read a script from standard input, one command a line, and run it in a world of one server, one \
             client and the bytes on their way between them. Empty lines are passed over. HEX is pairs of \
             digits in lower case; N is a number up to 1,000,000, or up to 65,535 in `resize`, with leading \
             zeros if you like; F is one of `ip`, `abort`, `eof`, `susp`, `ec`, `el`, `forw1` and `forw2`.\n\n\
             key HEX: the user types these keys\n\
             send brk, send ip, send ayt, send nop: the user sends this command\n\
             to-server N, to-client N: the first N bytes in flight arrive\n\
             settle: all that is in flight arrives, until nothing is in flight, in at most 64 rounds\n\
             write HEX: the job writes this\n\
             pull N: the server sends the first N symbols of the terminal's screen\n\
             wish local, wish remote: the server requests editing at the client, or at itself\n\
             echo on, echo off: the server sets its terminal's flag ECHO\n\
             mask HEX, mask off: the server sends a forward mask of at most 32 octets, or drops it\n\
             resize N N: the client's window has this width and height\n\
             set F HEX, propose F HEX: a special character, or `ff` for none\n\
             take: the job asks for an entry, which is printed as by `tn local`, or `none`\n\
             mark: prints whether all is at rest\n\
             flight: prints the bytes in flight\n\
             shown: prints the server's text on the client's screen\n\
             server-stops, client-stops: this end reads and sends nothing more; `take` still works",
        "Example:\n  printf 'settle\\nkey 610d\\nsettle\\ntake\\n' | tn world\n  text 610a",
    )
}

fn serve_command<'a>(alloc: Global) -> Result<Command<'a>, AllocError> {
    let command = described(
        alloc,
        SERVE,
        "Serve Telnet with LINEMODE",
        "Listen on a port of 127.0.0.1, or of each --host, and give each connection a terminal with standard \
         settings. Its job writes each line back, unless --to names a service; the line `exit` and the end of \
         file (^D on an empty line) end the session with `bye`, an interrupt (^C) writes `int`, a quit (^\\) \
         `quit`, and a stop (^Z) `tstp`. A connection that exceeds a limit gets `full` and is closed.\n\n\
         The server ends with status 0 once it has taken --count connections and their sessions have ended; \
         with --forever after a signal, and with --until once the file is there.",
        "Example:\n  tn serve --port 2323 --count 2\n\nAnd in another terminal, one after the other:\n  \
         tn connect --port 2323\n  telnet 127.0.0.1 2323",
    );
    with_groups(alloc, command, SERVE_GROUPS)
}

fn connect_command<'a>(alloc: Global) -> Result<Command<'a>, AllocError> {
    let command = described(
        alloc,
        CONNECT,
        "Connect to a Telnet server",
        "Connect to HOST, at port 23 or PORT; without HOST to a port of this machine. Standard input is the \
         keys, as they are typed, and standard output the screen. Lines are edited here and sent whole if the \
         server asks for it, and at a terminal also while the server takes whole lines. At the end of input \
         the client sends what is left, closes its side of the connection, and ends once the server has \
         closed the other.\n\n\
         At a terminal, start it by its launcher (`tn connect` once installed, `./tn connect` in the sources), \
         which sets the terminal so that each key is sent at once, and sets it back at the end.\n\n\
         At a terminal ^] begins a line to the client itself, which RETURN ends: quit, close or q; again; \
         status or s; suspend or z; log FILE and log off; mode auto and mode char; send brk, send ip and send \
         ayt, or b, i and a, unless --plain is given; help or ?. An empty line goes back, and ^] again sends \
         ^].",
        "Example, where `tn serve --port 2323` runs in another terminal:\n  \
         printf 'hello\\rexit\\r' | tn connect --port 2323",
    );
    with_groups(alloc, command, CONNECT_GROUPS)
}

// The command with these options.
fn with_groups<'a>(
    alloc: Global,
    command: Command<'a>,
    groups: &[Group],
) -> Result<Command<'a>, AllocError> {
    let mut command = command;
    for group in groups {
        for choice in group.choices {
            let argument = argument_of(alloc, *choice);
            command = command.arg(match group.heading {
                Some(heading) => argument.help_heading(heading),
                None => argument,
            })?;
        }
    }
    Ok(command)
}

// The argument by which the parser knows a choice.
fn argument_of<'a>(alloc: Global, choice: Choice) -> Arg<'a> {
    match choice {
        Choice::Flag(name, help) => flag_option(alloc, name, help),
        Choice::Letter(name, letter, help) => flag_option(alloc, name, help).short(letter),
        Choice::Text(name, value, help) => text_option(alloc, name, value, help),
        Choice::Number(whole, value, help) => number_option(alloc, whole, value, help),
        Choice::Default(whole, value, default, help) => {
            number_option(alloc, whole, value, help).default_value(default)
        },
        Choice::Hosts(help) => text_option(alloc, HOST, "HOST", help)
            .default_value("127.0.0.1")
            .action(ArgAction::Append),
        Choice::Port(help) => number_option(alloc, PORT, "PORT", help).short('p'),
        Choice::HostPlace(help) => Arg::new(alloc, HOST).value_name("HOST").help(help),
        Choice::PortPlace(help) => Arg::new(alloc, AT_PLACE).value_name("PORT").help(help),
        Choice::Seconds(whole, letter, help) => number_value(alloc, whole, "SECONDS", help)
            .short(letter)
            .default_value("0"),
    }
}

// An argument that takes a whole number.
fn number_value<'a>(
    alloc: Global,
    whole: Whole,
    value: &'static str,
    help: &'static str,
) -> Arg<'a> {
    Arg::new(alloc, whole.name)
        .value_name(value)
        .value_parser(reader(whole))
        .help(help)
}

fn number_option<'a>(
    alloc: Global,
    whole: Whole,
    value: &'static str,
    help: &'static str,
) -> Arg<'a> {
    number_value(alloc, whole, value, help).long(whole.name)
}

// The parser for the number of such an option.
fn reader<'a>(whole: Whole) -> ValueParser<'a> {
    value_parser!(u32).range(i64::from(whole.least)..=i64::from(whole.most))
}

fn text_option<'a>(
    alloc: Global,
    name: &'static str,
    value: &'static str,
    help: &'static str,
) -> Arg<'a> {
    Arg::new(alloc, name)
        .long(name)
        .value_name(value)
        .help(help)
}

// An option without a value.
fn flag_option<'a>(alloc: Global, name: &'static str, help: &'static str) -> Arg<'a> {
    Arg::new(alloc, name)
        .long(name)
        .action(ArgAction::SetTrue)
        .help(help)
}
