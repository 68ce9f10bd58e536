//! The names of codes, each table once (RFC 854, 885, 1184; options as they are assigned).

ghost use Rattle.std.specs.Prelude.{◌≡◌};
ghost use Rattle.tn_net.specs.printing.Names.{verb_name, command_name, option_name, func_name, level_name};

use tn_codes::{Command, Verb};

pub(crate) fn name_of_verb(verb: Verb) -> &'static [u8]
    ensures { result.now ≡ verb_name verb }
{
    match verb {
        Verb::Will => b"WILL",
        Verb::Wont => b"WONT",
        Verb::DoIt => b"DO",
        Verb::DontIt => b"DONT",
    }
}

pub(crate) fn name_of_command(command: Command) -> &'static [u8]
    ensures { result.now ≡ command_name command }
{
    match command {
        Command::Eof => b"EOF",
        Command::Susp => b"SUSP",
        Command::Abort => b"ABORT",
        Command::Eor => b"EOR",
        Command::Nop => b"NOP",
        Command::Dm => b"DM",
        Command::Brk => b"BRK",
        Command::Ip => b"IP",
        Command::Ao => b"AO",
        Command::Ayt => b"AYT",
        Command::Ec => b"EC",
        Command::El => b"EL",
        Command::Ga => b"GA",
    }
}

/// Returns the name of an option, or no bytes if it has none in this table.
#[tactic(auto, unfolding(crate::specs::printing::Names::option_name))]
pub(crate) fn name_of_option(option: u8) -> &'static [u8]
    ensures { result.now ≡ option_name option }
{
    match option {
        0 => b"BINARY",
        1 => b"ECHO",
        2 => b"RECONNECTION",
        3 => b"SUPPRESS-GO-AHEAD",
        4 => b"APPROX-MESSAGE-SIZE",
        5 => b"STATUS",
        6 => b"TIMING-MARK",
        7 => b"RCTE",
        8 => b"OUTPUT-LINE-WIDTH",
        9 => b"OUTPUT-PAGE-SIZE",
        10 => b"OUTPUT-CR-DISPOSITION",
        11 => b"OUTPUT-HT-STOPS",
        12 => b"OUTPUT-HT-DISPOSITION",
        13 => b"OUTPUT-FF-DISPOSITION",
        14 => b"OUTPUT-VT-STOPS",
        15 => b"OUTPUT-VT-DISPOSITION",
        16 => b"OUTPUT-LF-DISPOSITION",
        17 => b"EXTENDED-ASCII",
        18 => b"LOGOUT",
        19 => b"BYTE-MACRO",
        20 => b"DATA-ENTRY-TERMINAL",
        21 => b"SUPDUP",
        22 => b"SUPDUP-OUTPUT",
        23 => b"SEND-LOCATION",
        24 => b"TERMINAL-TYPE",
        25 => b"END-OF-RECORD",
        26 => b"TACACS-USER-IDENTIFICATION",
        27 => b"OUTPUT-MARKING",
        28 => b"TERMINAL-LOCATION-NUMBER",
        29 => b"3270-REGIME",
        30 => b"X.3-PAD",
        31 => b"NAWS",
        32 => b"TERMINAL-SPEED",
        33 => b"TOGGLE-FLOW-CONTROL",
        34 => b"LINEMODE",
        35 => b"X-DISPLAY-LOCATION",
        36 => b"ENVIRON",
        37 => b"AUTHENTICATION",
        38 => b"ENCRYPT",
        39 => b"NEW-ENVIRON",
        40 => b"TN3270E",
        41 => b"XAUTH",
        42 => b"CHARSET",
        43 => b"REMOTE-SERIAL-PORT",
        44 => b"COM-PORT-CONTROL",
        45 => b"SUPPRESS-LOCAL-ECHO",
        46 => b"START-TLS",
        47 => b"KERMIT",
        48 => b"SEND-URL",
        49 => b"FORWARD-X",
        _ => b"",
    }
}

/// Returns the name of a function, or no bytes if it has none.
#[tactic(auto, unfolding(crate::specs::printing::Names::func_name))]
pub(crate) fn name_of_func(func: u8) -> &'static [u8]
    ensures { result.now ≡ func_name func }
{
    match func {
        1 => b"SYNCH",
        2 => b"BRK",
        3 => b"IP",
        4 => b"AO",
        5 => b"AYT",
        6 => b"EOR",
        7 => b"ABORT",
        8 => b"EOF",
        9 => b"SUSP",
        10 => b"EC",
        11 => b"EL",
        12 => b"EW",
        13 => b"RP",
        14 => b"LNEXT",
        15 => b"XON",
        16 => b"XOFF",
        17 => b"FORW1",
        18 => b"FORW2",
        19 => b"MCL",
        20 => b"MCR",
        21 => b"MCWL",
        22 => b"MCWR",
        23 => b"MCBOL",
        24 => b"MCEOL",
        25 => b"INSRT",
        26 => b"OVER",
        27 => b"ECR",
        28 => b"EWR",
        29 => b"EBOL",
        30 => b"EEOL",
        _ => b"",
    }
}

/// Returns the name of the level in the two low bits of a modifier.
pub(crate) fn name_of_level(level: u8) -> &'static [u8]
    ensures { result.now ≡ level_name level }
{
    match level {
        0 => b"NOSUPPORT",
        1 => b"CANTCHANGE",
        2 => b"VALUE",
        _ => b"DEFAULT",
    }
}
