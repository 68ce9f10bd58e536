//! The codes of calls, and the numbers that C sees.

ghost use Rattle.std.specs.Prelude.{◌≡◌};
ghost use Rattle.tn_c.specs.{parts.Codes.code_number, declared.parts.codes.Code.Code};

macro_rules! number_of {
    ($code:expr, $($name:ident = $number:literal),*) => {
        match $code {
            $(Code::$name => $number,)*
        }
    };
}

/// The code of a call. Each refusal has a code of its own.
#[derive(Clone, Copy, Debug, PartialEq, Eq)]
pub enum Code {
    /// The call was done.
    Done,
    /// An allocation was refused.
    Memory,
    /// The end or the decoder has failed before.
    Failed,
    /// The handle holds nothing.
    NotStarted,
    /// The handle holds something already.
    Started,
    /// The handle holds something of another kind.
    OtherKind,
    /// The limit is one that no line can have.
    NoLimit,
    /// A key would make an entry while 1,024 wait.
    TooFarAhead,
    /// The terminal is closed to input.
    Closed,
    /// RFC 1184 has no function of this number.
    NoFunction,
    /// The function has no special character.
    NotSettable,
    /// A line feed, a carriage return and 255 are never special characters, and the options that the ends negotiate
    /// are never owned.
    Reserved,
    /// The value is that of another special character.
    Taken,
    /// LINEMODE is not on.
    NotOn,
    /// A forward mask has at most 32 octets, and a subnegotiation 512 parameters.
    TooLong,
    /// The number is that of no command that the call takes, or of no verb of an option message.
    NoCommand,
    /// The option is not owned.
    NotOwned,
    /// A piece came before: an option is owned before that.
    TooLate,
    /// 64 items of owned options wait, or more.
    ItemsWait,
}

impl Code {
    /// Returns the number of the code.
    pub fn number(self) -> u32
        ensures value { result ≡ code_number self }
        ensures tells { (code : Code) → result ≡ code_number code → self ≡ code }
    {
        number_of!(
            self,
            Done = 0,
            Memory = 1,
            Failed = 2,
            NotStarted = 3,
            Started = 4,
            OtherKind = 5,
            NoLimit = 6,
            TooFarAhead = 7,
            Closed = 8,
            NoFunction = 9,
            NotSettable = 10,
            Reserved = 11,
            Taken = 12,
            NotOn = 13,
            TooLong = 14,
            NoCommand = 15,
            NotOwned = 16,
            TooLate = 17,
            ItemsWait = 18
        )
    }
}
