//! A server end, what it has to send, and the entry that was taken last.

ghost use Rattle.std.specs.Prelude.{◌≡◌, ◌≢◌, ◌||◌, IfOk, IfErr, slice_get, if◌then◌else◌};
ghost use Rattle.tn_option.specs.Options.{state_of};
ghost use Rattle.tn_pty.specs.Terminal.{first_signal};
ghost use Rattle.tn_server.specs.{Calls.{LeadsTo, call_fault}, Events.{History, echo_set}, Screen.size};
ghost use Rattle.tn_server.specs.{Lines.{half, waiting}, Terms.options};
ghost use Rattle.tn_server.specs.declared.faults.ServerFault.TheVariants as fault;
ghost use Rattle.tn_c.specs.parts.{Bytes.Gives, Changes.ChangesCall, Calling.{OfFunction, GivesChar}};
ghost use Rattle.tn_c.specs.parts.Entries.{kind_number, signal_number, text_of};
ghost use Rattle.tn_c.specs.parts.ServerCalls.{IsServerChar, IsOpened, FeedCall, FeedSomeCall, TakeCall};
ghost use Rattle.tn_c.specs.parts.ServerCalls.{ForgetCall, WriteCall, PullCall, ReadCall, SayCall};
ghost use Rattle.tn_c.specs.parts.ServerCalls.{GivesPending, SentCall, Acts, WishCall, SetCharCall};
ghost use Rattle.tn_c.specs.parts.ServerCalls.{SetMaskCall, SetOctetsCall, EndTakes, OnOwned};
ghost use Rattle.tn_c.specs.parts.{ServerCalls.{SayOwnCall, SayOwnSubCall}, OwnOptions.{OwnCall, TakeOwnCall}};
ghost use Rattle.tn_c.specs.parts.Readings.{char_given, editing_given, side_given, state_number};
ghost use Rattle.tn_c.specs.declared.parts.codes.Code.TheVariants as code;

use crate::parts::bytes::{drop_front, give, move_front};
use crate::parts::changes::{Seen, change_bits, seen_of};
use crate::parts::codes::Code;
use crate::parts::decoder::ItemSeen;
use crate::parts::entries::{entry_number, entry_text, kind_number, sig_number, text_of, wiped};
use crate::parts::owned::Owned;
use crate::parts::readings::{char_given, editing_given, give_char, side_given, state_number};
use std::alloc::Global;
use tn_codes::{Func, Mask};
use tn_discipline::{CharFault, Entry, Limit, Settings};
use tn_pty::{PtyFault, QUEUE_SYMBOLS};
use tn_server::{Editing, Opening, ServerEnd, ServerFault};

/// The number of octets of a forward mask (RFC 1184, section 2.3).
const MASK_OCTETS: usize = 32;

/// The most entries that may wait before a piece that finds room for each entry that it makes, and
/// the most bytes of such a piece (`pieces_find_room` in `tn_server`).
const MOST_BEFORE: usize = 511;

const MOST_TAKEN: usize = 512;

/// The code of the end's answer to a call; `$done` is done first if the call was not refused.
macro_rules! code_of {
    ($answer:expr, $given:pat => $done:block) => {
        match $answer {
            Ok($given) => {
                $done
                Code::Done
            },
            Err(ServerFault::Memory) => Code::Memory,
            Err(ServerFault::Failed) => Code::Failed,
            Err(ServerFault::NotOn) => Code::NotOn,
            Err(ServerFault::Pty(PtyFault::TooFarAhead)) => Code::TooFarAhead,
            Err(ServerFault::Pty(PtyFault::Memory)) => Code::Memory,
            Err(ServerFault::Pty(PtyFault::Closed)) => Code::Closed,
            Err(ServerFault::Char(CharFault::NotSettable)) => Code::NotSettable,
            Err(ServerFault::Char(CharFault::Reserved)) => Code::Reserved,
            Err(ServerFault::Char(CharFault::Taken)) => Code::Taken,
        }
    };
}

// Takes no byte: sets `taken` to 0, unless the end has failed.
fn take_none(has_failed: bool, taken: &mut usize) -> Code
    ensures answer { result ≡ (if has_failed then code.Failed else code.Done) }
    ensures taken { result ≡ code.Done → taken.new ≡ 0 }
    ensures untaken { result ≢ code.Done → taken.new ≡ taken.old }
{
    if has_failed {
        return Code::Failed;
    }
    *taken = 0;
    Code::Done
}

// Feeds a piece to the end; the replies are appended.
fn feed_end(end: &mut ServerEnd, piece: &[u8], pending: &mut Vec<u8>) -> Code
    ensures { EndTakes result end.old end.new pending.old.items pending.new.items piece.now }
{
    code_of!(end.feed(piece, pending), () => {})
}

/// A server end, what it has to send, and the entry that was taken last.
#[derive(Drop)]
pub struct HeldServer {
    pub end: ServerEnd,
    pub pending: Vec<u8>,
    pub entry: Option<Entry>,
    /// The facts of the end at the start, or at the last call of `changes`.
    pub seen: Seen,
    pub owned: Owned,
}

impl HeldServer {
    /// Starts an end that opens so, over a terminal with these settings; its opening messages are to
    /// be sent.
    ///
    /// # Errors
    ///
    /// - `Memory`: there is no memory for the terminal or for the messages.
    pub fn start(
        alloc: Global,
        opening: Opening,
        settings: Settings,
        limit: Limit,
    ) -> Result<HeldServer, ServerFault>
        ensures ok { IfOk result (IsOpened opening (record { settings = settings; limit = limit })) }
        ensures fault { IfErr result (λ f. f ≡ fault.Memory) }
    {
        let mut pending = Vec::new(alloc);
        let end = ServerEnd::open(opening, alloc, settings, limit, &mut pending)?;
        let seen = seen_of(&end);
        Ok(HeldServer {
            end,
            pending,
            entry: None,
            seen,
            owned: Owned::new(alloc),
        })
    }

    /// Takes a piece of the client's stream, cut anywhere; the replies are to be sent, and the items of owned
    /// options wait.
    pub fn feed(&mut self, piece: &[u8]) -> Code
        ensures { FeedCall piece.now result self.old self.new }
    {
        if self.owned.is_none() {
            self.owned.fed = true;
            return feed_end(&mut self.end, piece, &mut self.pending);
        }
        if self.end.failed() {
            return Code::Failed;
        }
        match self.owned.sift(piece) {
            Code::Done => {
                let rest = self.owned.sieve.rest.as_slice();
                feed_end(&mut self.end, rest, &mut self.pending)
            },
            refusal => refusal,
        }
    }

    /// Owns an option, before anything came: its items wait from then on, and the end gets none of them.
    pub fn own(&mut self, option: u8) -> Code
        ensures { OnOwned (OwnCall option result) self.old self.new }
    {
        self.owned.own(option)
    }

    /// Takes the first item of owned options that waits, if there is one.
    pub fn take_own(&mut self, item: &mut ItemSeen)
        ensures { OnOwned (TakeOwnCall item.new) self.old self.new }
    {
        self.owned.take(item);
    }

    /// Sends an option message of an owned option, whose verb has this byte.
    pub fn say_own(&mut self, option: u8, word: u8) -> Code
        ensures { SayOwnCall option word result self.old self.new }
    {
        self.owned.put_word(option, word, &mut self.pending)
    }

    /// Sends a subnegotiation of an owned option, of at most 512 parameters.
    pub fn say_own_sub(&mut self, option: u8, params: &[u8]) -> Code
        ensures { SayOwnSubCall option params.now result self.old self.new }
    {
        self.owned.put_sub(option, params, &mut self.pending)
    }

    /// Returns whether a feed failed: the end has failed, or the decoder of owned options.
    pub fn failed(&self) -> bool
        ensures { result ≡ (self.now.end.failed || self.now.owned.failed) }
    {
        self.end.failed() || self.owned.failed
    }

    /// Takes the first bytes of the client's stream, as many as cannot make more entries than may
    /// wait, and sets `taken` to their number. It takes none while more than 511 entries wait.
    pub fn feed_some(&mut self, bytes: &[u8], taken: &mut usize) -> Code
        ensures { FeedSomeCall bytes.now taken.old taken.new result self.old self.new }
    {
        if self.end.waiting(MOST_BEFORE).is_some() {
            return take_none(self.end.failed(), taken);
        }
        let count = bytes.len().min(MOST_TAKEN);
        let code = self.feed(&bytes[..count]);
        if matches!(code, Code::Done) {
            *taken = count;
        }
        code
    }

    /// Takes the first entry that waits, and sets `kind` to the number of its kind.
    pub fn take(&mut self, kind: &mut u32) -> Code
        ensures { TakeCall kind.old kind.new result self.old self.new }
    {
        match self.end.take(&mut self.pending) {
            Ok(entry) => {
                *kind = kind_number(&entry);
                self.entry = entry;
                Code::Done
            },
            Err(_) => Code::Memory,
        }
    }

    /// Copies the first bytes of the text that was taken last, as many as fit, and sets `count` to
    /// the number of all of them.
    pub fn text(&self, buf: &mut [u8], count: &mut usize)
        ensures { Gives (text_of self.now.entry) buf.old buf.new count.new }
    {
        *count = give(text_of(&self.entry), buf);
    }

    /// Wipes the text of the entry that was taken last: its bytes are 0 from then on.
    pub fn forget(&mut self)
        ensures { ForgetCall self.old self.new }
    {
        self.entry = wiped(self.entry.take());
    }

    /// Writes the first bytes of a job's output to the terminal's screen, as many as fit, and sets
    /// `count` to their number.
    pub fn write(&mut self, bytes: &[u8], count: &mut usize)
        ensures { WriteCall bytes.now count.new self.old self.new }
    {
        *count = self.end.write(bytes);
    }

    /// Spells the first symbols of the screen, at most `max` of them, to be sent, and sets `count`
    /// to their number.
    pub fn pull(&mut self, max: usize, count: &mut usize) -> Code
        ensures { PullCall max count.old count.new result self.old self.new }
    {
        match self.end.pull(max, &mut self.pending) {
            Ok(symbols) => {
                *count = symbols;
                Code::Done
            },
            Err(_) => Code::Memory,
        }
    }

    /// Writes the first bytes of a job's output, as many as fit, sets `count` to their number, and
    /// spells all that waits on the screen, to be sent. It returns `Memory` if that could not be
    /// spelled: the bytes wait on the screen.
    pub fn say(&mut self, bytes: &[u8], count: &mut usize) -> Code
        ensures { SayCall bytes.now count.new result self.old self.new }
    {
        self.write(bytes, count);
        let mut symbols = 0;
        self.pull(QUEUE_SYMBOLS, &mut symbols)
    }

    /// Sets `bytes` to the place of the bytes that are to be sent, and `count` to their number.
    pub fn peek(&self, bytes: &mut *const u8, count: &mut usize)
        ensures { GivesPending bytes.new count.new self.now }
    {
        *bytes = self.pending.as_ptr();
        *count = self.pending.len();
    }

    /// Drops the first of the bytes that are to be sent, at most `count` of them: they were sent.
    pub fn sent(&mut self, count: usize)
        ensures { SentCall count self.old self.new }
    {
        drop_front(&mut self.pending, count);
    }

    /// Requests that the client, or the server, edit lines, and sets `sent` to whether a MODE is
    /// sent for it.
    pub fn wish(&mut self, editing: Editing, sent: &mut bool) -> Code
        ensures { WishCall editing sent.old sent.new result self.old self.new }
    {
        code_of!(self.end.wish(editing, &mut self.pending), is_sent => { *sent = is_sent; })
    }

    /// Requests that the client edit lines if `local` is true, and else the server, and sets `sent`
    /// to whether a MODE is sent for it.
    pub fn wish_for(&mut self, local: bool, sent: &mut bool) -> Code
        ensures { WishCall (editing_given local) sent.old sent.new result self.old self.new }
    {
        self.wish(editing_given(local), sent)
    }

    /// Changes a special character, or disables it; the triple for a client with LINEMODE is to be
    /// sent.
    pub fn set_char(&mut self, func: Func, value: Option<u8>) -> Code
        ensures call { SetCharCall value func result self.old self.new }
        ensures known { result ≢ code.NoFunction }
    {
        code_of!(self.end.set_char(func, value, &mut self.pending), () => {})
    }

    /// Sets or clears the terminal's flag ECHO; the message for the option ECHO is to be sent, if
    /// one is due.
    pub fn set_echo(&mut self, on: bool) -> Code
        ensures { Acts (echo_set on) call_fault result self.old self.new }
    {
        code_of!(self.end.set_echo(on, &mut self.pending), () => {})
    }

    /// Asks the client to send the bytes that it holds at each character of this mask, or by `None`
    /// at none any more.
    pub fn set_mask(&mut self, mask: Option<Mask>) -> Code
        ensures call { SetMaskCall mask result self.old self.new }
        ensures short { result ≢ code.TooLong }
    {
        code_of!(self.end.set_mask(mask, &mut self.pending), () => {})
    }

    /// Changes the special character of the function with this number, as C gives both.
    pub fn set_function(&mut self, function: u8, value: u16) -> Code
        ensures { OfFunction function (SetCharCall (char_given value)) result self.old self.new }
    {
        match Func::from_code(function) {
            Some(func) => self.set_char(func, char_given(value)),
            None => Code::NoFunction,
        }
    }

    /// Asks the client to send the bytes that it holds at each character of the mask of these
    /// octets; those that the mask lacks are zero.
    pub fn set_octets(&mut self, octets: &[u8]) -> Code
        ensures { SetOctetsCall octets.now result self.old self.new }
    {
        if octets.len() > MASK_OCTETS {
            return Code::TooLong;
        }
        self.set_mask(Some(Mask::from_octets(octets)))
    }

    /// Moves the first bytes that are to be sent, as many as fit, and sets `count` to their number;
    /// the others stay.
    pub fn read(&mut self, buf: &mut [u8], count: &mut usize)
        ensures { ReadCall buf.old buf.new count.new self.old self.new }
    {
        *count = move_front(&mut self.pending, buf);
    }

    /// Copies the first bytes of the half-typed line, as many as fit, and sets `count` to the
    /// number of all of them.
    pub fn half(&self, buf: &mut [u8], count: &mut usize)
        ensures { (h : History) → LeadsTo h self.now.end → Gives (half h) buf.old buf.new count.new }
    {
        *count = give(self.end.half(), buf);
    }

    /// Returns the number of the kind of an entry that waits, counted from the first, which is 0;
    /// the number is 0 if none is there.
    pub fn waiting_kind(&self, index: usize) -> u32
        ensures { (h : History) → LeadsTo h self.now.end →
            result ≡ kind_number (slice_get (waiting h) index) }
    {
        match self.end.waiting(index) {
            None => 0,
            Some(entry) => entry_number(entry),
        }
    }

    /// Copies the first bytes of the text of an entry that waits, counted from the first, which is
    /// 0, as many as fit, and sets `count` to the number of all of them; the entry stays.
    pub fn waiting_text(&self, index: usize, buf: &mut [u8], count: &mut usize)
        ensures { (h : History) → LeadsTo h self.now.end →
            Gives (text_of (slice_get (waiting h) index)) buf.old buf.new count.new }
    {
        let waiting = self.end.waiting(index);
        match waiting {
            Some(entry) => *count = give(entry_text(entry), buf),
            None => *count = give(&[], buf),
        }
    }

    /// Returns the number of the first signal among the entries that wait, or 0 if there is none.
    pub fn signal_waiting(&self) -> u32
        ensures { (h : History) → LeadsTo h self.now.end → result ≡ signal_number (first_signal (waiting h)) }
    {
        match self.end.signal_waiting() {
            None => 0,
            Some(sig) => sig_number(sig),
        }
    }

    /// Sets `bits` to the bits of `tn_change` for all that differs from the last such call, or from
    /// the start.
    pub fn changes(&mut self, bits: &mut u32)
        ensures { ChangesCall bits.new self.old self.new }
    {
        let seen = seen_of(&self.end);
        *bits = change_bits(&self.seen, &seen);
        self.seen = seen;
    }

    /// Sets `width` and `height` to the window's size in characters; 0 is unspecified.
    pub fn size(&self, width: &mut u16, height: &mut u16)
        ensures { (h : History) → LeadsTo h self.now.end → (width.new, height.new) ≡ size h }
    {
        let (columns, rows) = self.end.size();
        *width = columns;
        *height = rows;
    }

    /// Sets `value` to the number of the special character of the function with this number; 256 if
    /// it is disabled.
    pub fn function_char(&self, function: u8, value: &mut u16) -> Code
        ensures { GivesChar function value.old value.new IsServerChar result self.now self.now }
    {
        give_char(&self.end.chars(), function, value)
    }

    /// Returns the number of an option's state, at our side or at theirs.
    pub fn option(&self, ours: bool, option: u8) -> u32
        ensures { (h : History) → LeadsTo h self.now.end →
            result ≡ state_number (state_of (options h) (side_given ours) option) }
    {
        state_number(self.end.option(side_given(ours), option))
    }
}
