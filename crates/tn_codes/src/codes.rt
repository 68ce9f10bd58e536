//! Each table of codes once, as a list of names and numbers, and the two directions of it.

ghost use Rattle.std.specs.Prelude.{◌≡◌, ◌↔◌, Some};
ghost use Rattle.tn_codes.specs.Codes.{verb_code, command_code, func_code, level_code};
ghost use Rattle.tn_codes.specs.declared.codes.{Verb.Verb, Command.Command, Func.Func, Level.Level};

macro_rules! verbs {
    ($direction:ident, $value:expr) => {
        $direction!(Verb, $value, Will = 251, Wont = 252, DoIt = 253, DontIt = 254)
    };
}

macro_rules! commands {
    ($direction:ident, $value:expr) => {
        $direction!(
            Command, $value,
            Eof = 236, Susp = 237, Abort = 238, Eor = 239, Nop = 241, Dm = 242, Brk = 243,
            Ip = 244, Ao = 245, Ayt = 246, Ec = 247, El = 248, Ga = 249
        )
    };
}

macro_rules! funcs {
    ($direction:ident, $value:expr) => {
        $direction!(
            Func, $value,
            Synch = 1, Brk = 2, Ip = 3, Ao = 4, Ayt = 5, Eor = 6, Abort = 7, Eof = 8, Susp = 9,
            Ec = 10, El = 11, Ew = 12, Rp = 13, Lnext = 14, Xon = 15, Xoff = 16, Forw1 = 17,
            Forw2 = 18
        )
    };
}

macro_rules! levels {
    ($direction:ident, $value:expr) => {
        $direction!(Level, $value, NoSupport = 0, CantChange = 1, Value = 2, ByDefault = 3)
    };
}

macro_rules! to_code {
    ($table:ident, $value:expr, $($name:ident = $code:literal),*) => {
        match $value {
            $($table::$name => $code,)*
        }
    };
}

macro_rules! of_code {
    ($table:ident, $value:expr, $($name:ident = $code:literal),*) => {
        match $value {
            $($code => Some($table::$name),)*
            _ => None,
        }
    };
}

/// A verb of the negotiation of options: WILL, WONT, DO or DONT (RFC 854, "Option negotiation").
#[derive(Clone, Copy, Debug, PartialEq, Eq)]
pub enum Verb {
    Will,
    Wont,
    DoIt,
    DontIt,
}

impl Verb {
    /// Returns the byte that follows IAC.
    pub fn code(self) -> u8
        ensures { result ≡ verb_code self }
    {
        verbs!(to_code, self)
    }

    /// Returns the verb of a byte that follows IAC, or `None` if that byte is no verb.
    pub fn from_code(code: u8) -> Option<Verb>
        ensures { (verb : Verb) → (result ≡ Some verb) ↔ (verb_code verb ≡ code) }
    {
        verbs!(of_code, code)
    }
}

/// A command that is one byte after IAC (RFC 854, "Telnet command structure"; RFC 885 for EOR;
/// RFC 1184, section 2 for EOF, SUSP and ABORT).
#[derive(Clone, Copy, PartialEq, Eq)]
pub enum Command {
    Eof,
    Susp,
    Abort,
    Eor,
    Nop,
    Dm,
    Brk,
    Ip,
    Ao,
    Ayt,
    Ec,
    El,
    Ga,
}

impl Command {
    /// Returns the byte that follows IAC.
    pub fn code(self) -> u8
        ensures { result ≡ command_code self }
    {
        commands!(to_code, self)
    }

    /// Returns the command of a byte that follows IAC, or `None` if that byte is none.
    pub fn from_code(code: u8) -> Option<Command>
        ensures { (command : Command) → (result ≡ Some command) ↔ (command_code command ≡ code) }
    {
        commands!(of_code, code)
    }
}

/// A function of the set of local characters (RFC 1184, section 2.4: SLC_SYNCH to SLC_FORW2).
#[derive(Clone, Copy, Debug, PartialEq, Eq)]
pub enum Func {
    Synch,
    Brk,
    Ip,
    Ao,
    Ayt,
    Eor,
    Abort,
    Eof,
    Susp,
    Ec,
    El,
    Ew,
    Rp,
    Lnext,
    Xon,
    Xoff,
    Forw1,
    Forw2,
}

impl Func {
    /// Returns the first octet of a triple.
    pub fn code(self) -> u8
        ensures { result ≡ func_code self }
    {
        funcs!(to_code, self)
    }

    /// Returns the function of a triple's first octet, or `None` if it is none of the eighteen.
    pub fn from_code(code: u8) -> Option<Func>
        ensures { (func : Func) → (result ≡ Some func) ↔ (func_code func ≡ code) }
    {
        funcs!(of_code, code)
    }
}

/// The level at which a function of the set of local characters is supported (RFC 1184, section
/// 2.4: SLC_LEVELBITS).
#[derive(Clone, Copy, PartialEq, Eq)]
pub enum Level {
    NoSupport,
    CantChange,
    Value,
    ByDefault,
}

impl Level {
    /// Returns the two low bits of a triple's modifier.
    pub fn code(self) -> u8
        ensures { result ≡ level_code self }
    {
        levels!(to_code, self)
    }

    /// Returns the level of a number of 0 to 3, or `None` if the number is larger.
    pub fn from_code(code: u8) -> Option<Level>
        ensures { (level : Level) → (result ≡ Some level) ↔ (level_code level ≡ code) }
    {
        levels!(of_code, code)
    }
}
