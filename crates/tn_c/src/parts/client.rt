//! A client end, what it has to send, and what it has to show.

ghost use Rattle.std.specs.Prelude.{◌≡◌, ◌≢◌, ◌||◌, IfOk, IfErr};
ghost use Rattle.tn_client.specs.declared.faults.ClientFault.TheVariants as fault;
ghost use Rattle.tn_c.specs.parts.{Calling.{OfFunction, GivesChar}, Faults.client_answer};
ghost use Rattle.tn_c.specs.parts.ClientCalls.{KeyCall, FeedCall, ResizeCall, ProposeCall, SendCall};
ghost use Rattle.tn_c.specs.parts.ClientCalls.{NewLineCall, SendNumberCall, ReadCall, ScreenCall, GivesHalf};
ghost use Rattle.tn_c.specs.parts.ClientCalls.{GivesCounts, GivesOption, IsClientChar, IsOpened, EndTakes};
ghost use Rattle.tn_c.specs.parts.{ClientCalls.{OnOwned, SayOwnCall, SayOwnSubCall}, OwnOptions.{OwnCall, TakeOwnCall}};
ghost use Rattle.tn_c.specs.parts.Readings.{char_given};
ghost use Rattle.tn_c.specs.declared.parts.codes.Code.TheVariants as code;

use crate::parts::bytes::{give, move_front};
use crate::parts::codes::Code;
use crate::parts::decoder::ItemSeen;
use crate::parts::owned::Owned;
use crate::parts::readings::{char_given, command_given, give_char, side_given, state_number};
use std::alloc::Global;
use tn_client::{ClientEnd, ClientFault, UserCommand};
use tn_codes::Func;
use tn_discipline::{CharFault, Limit};

// Returns the code of the end's answer to a call.
fn code_of(answer: Result<(), ClientFault>) -> Code
    ensures { result ≡ client_answer answer }
{
    match answer {
        Ok(()) => Code::Done,
        Err(ClientFault::Memory) => Code::Memory,
        Err(ClientFault::Failed) => Code::Failed,
        Err(ClientFault::NotOn) => Code::NotOn,
        Err(ClientFault::Char(CharFault::NotSettable)) => Code::NotSettable,
        Err(ClientFault::Char(CharFault::Reserved)) => Code::Reserved,
        Err(ClientFault::Char(CharFault::Taken)) => Code::Taken,
    }
}

// Feeds a piece to the end; the replies are appended, and so is what is to be shown.
fn feed_end(end: &mut ClientEnd, piece: &[u8], pending: &mut Vec<u8>, shown: &mut Vec<u8>) -> Code
    ensures { EndTakes result end.old end.new
        pending.old.items pending.new.items shown.old.items shown.new.items piece.now }
{
    code_of(end.feed(piece, pending, shown))
}

/// A client end, what it has to send, and what it has to show.
#[derive(Drop)]
pub struct HeldClient {
    pub end: ClientEnd,
    pub pending: Vec<u8>,
    pub shown: Vec<u8>,
    pub owned: Owned,
}

impl HeldClient {
    /// Starts an end whose window has this size, in characters. It has nothing to send: the server
    /// begins the negotiation.
    ///
    /// # Errors
    ///
    /// - `Memory`: there is no memory for the line.
    pub fn start(
        alloc: Global,
        width: u16,
        height: u16,
        limit: Limit,
    ) -> Result<HeldClient, ClientFault>
        ensures ok { IfOk result (IsOpened width height limit) }
        ensures fault { IfErr result (λ f. f ≡ fault.Memory) }
    {
        Ok(HeldClient {
            end: ClientEnd::start(alloc, width, height, limit)?,
            pending: Vec::new(alloc),
            shown: Vec::new(alloc),
            owned: Owned::new(alloc),
        })
    }

    /// Types a key: the bytes that it sends are to be sent, and its echo is to be shown.
    pub fn key(&mut self, key: u8) -> Code
        ensures { KeyCall key result self.old self.new }
    {
        code_of(self.end.key(key, &mut self.pending, &mut self.shown))
    }

    /// Enters a new line: the key LF, which goes to the server as CR LF, also if keys go one at a time.
    pub fn new_line(&mut self) -> Code
        ensures { NewLineCall result self.old self.new }
    {
        code_of(self.end.new_line(&mut self.pending, &mut self.shown))
    }

    /// Takes a piece of the server's stream, cut anywhere: replies are to be sent, text is to be
    /// shown, and the items of owned options wait.
    pub fn feed(&mut self, piece: &[u8]) -> Code
        ensures { FeedCall piece.now result self.old self.new }
    {
        if self.owned.is_none() {
            self.owned.fed = true;
            return feed_end(&mut self.end, piece, &mut self.pending, &mut self.shown);
        }
        if self.end.failed() {
            return Code::Failed;
        }
        match self.owned.sift(piece) {
            Code::Done => {
                let rest = self.owned.sieve.rest.as_slice();
                feed_end(&mut self.end, rest, &mut self.pending, &mut self.shown)
            },
            refusal => refusal,
        }
    }

    /// Owns an option, before anything came: its items wait from then on, and the end gets none of them.
    pub fn own(&mut self, option: u8) -> Code
        ensures { OnOwned (OwnCall option result) self.old self.new }
    {
        self.owned.own(option)
    }

    /// Takes the first item of owned options that waits, if there is one.
    pub fn take_own(&mut self, item: &mut ItemSeen)
        ensures { OnOwned (TakeOwnCall item.new) self.old self.new }
    {
        self.owned.take(item);
    }

    /// Sends an option message of an owned option, whose verb has this byte.
    pub fn say_own(&mut self, option: u8, word: u8) -> Code
        ensures { SayOwnCall option word result self.old self.new }
    {
        self.owned.put_word(option, word, &mut self.pending)
    }

    /// Sends a subnegotiation of an owned option, of at most 512 parameters.
    pub fn say_own_sub(&mut self, option: u8, params: &[u8]) -> Code
        ensures { SayOwnSubCall option params.now result self.old self.new }
    {
        self.owned.put_sub(option, params, &mut self.pending)
    }

    /// Returns whether a feed failed: the end has failed, or the decoder of owned options.
    pub fn failed(&self) -> bool
        ensures { result ≡ (self.now.end.failed || self.now.owned.failed) }
    {
        self.end.failed() || self.owned.failed
    }

    /// Takes a new size of the window, which is to be sent if NAWS is on and the size changed.
    pub fn resize(&mut self, width: u16, height: u16) -> Code
        ensures { ResizeCall width height result self.old self.new }
    {
        code_of(self.end.resize(width, height, &mut self.pending))
    }

    /// Proposes a special character to the server, or none.
    pub fn propose(&mut self, func: Func, value: Option<u8>) -> Code
        ensures call { ProposeCall value func result self.old self.new }
        ensures known { result ≢ code.NoFunction }
    {
        code_of(self.end.propose(func, value, &mut self.pending))
    }

    /// Proposes a special character for the function with this number, as C gives both.
    pub fn propose_function(&mut self, function: u8, value: u16) -> Code
        ensures { OfFunction function (ProposeCall (char_given value)) result self.old self.new }
    {
        match Func::from_code(function) {
            Some(func) => self.propose(func, char_given(value)),
            None => Code::NoFunction,
        }
    }

    /// Sends a command, before the bytes of a line that are held.
    pub fn send(&mut self, command: UserCommand) -> Code
        ensures call { SendCall command result self.old self.new }
        ensures known { result ≢ code.NoCommand }
    {
        code_of(self.end.send(command, &mut self.pending))
    }

    /// Sends the command with this number, as C gives it.
    pub fn send_command(&mut self, number: u32) -> Code
        ensures { SendNumberCall number result self.old self.new }
    {
        match command_given(number) {
            Some(command) => self.send(command),
            None => Code::NoCommand,
        }
    }

    /// Moves the first bytes that are to be sent, as many as fit, and sets `count` to their number;
    /// the others stay.
    pub fn read(&mut self, buf: &mut [u8], count: &mut usize)
        ensures { ReadCall buf.old buf.new count.new self.old self.new }
    {
        *count = move_front(&mut self.pending, buf);
    }

    /// Moves the first bytes that are to be shown, as many as fit, and sets `count` to their
    /// number; the others stay.
    pub fn screen(&mut self, buf: &mut [u8], count: &mut usize)
        ensures { ScreenCall buf.old buf.new count.new self.old self.new }
    {
        *count = move_front(&mut self.shown, buf);
    }

    /// Copies the first bytes of the half-typed line that the client holds, as many as fit, and
    /// sets `count` to the number of all of them.
    pub fn half(&self, buf: &mut [u8], count: &mut usize)
        ensures { GivesHalf buf.old buf.new count.new self.now }
    {
        *count = give(self.end.half(), buf);
    }

    /// Sets `trapped` and `plain` to the length of a half-typed line that the server edits, if its
    /// ISIG is set and if it is clear.
    pub fn counts(&self, trapped: &mut u16, plain: &mut u16)
        ensures { GivesCounts trapped.new plain.new self.now }
    {
        let (with_signals, without) = self.end.counts();
        *trapped = with_signals;
        *plain = without;
    }

    /// Sets `value` to the number of the special character of the function with this number; 256 if
    /// it is disabled.
    pub fn function_char(&self, function: u8, value: &mut u16) -> Code
        ensures { GivesChar function value.old value.new IsClientChar result self.now self.now }
    {
        give_char(&self.end.chars(), function, value)
    }

    /// Returns the number of an option's state, at our side or at theirs.
    pub fn option(&self, ours: bool, option: u8) -> u32
        ensures { GivesOption ours option result self.now }
    {
        state_number(self.end.option(side_given(ours), option))
    }
}
