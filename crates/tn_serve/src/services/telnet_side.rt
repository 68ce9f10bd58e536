//! The client's side of a talk in Telnet with a service.

ghost use Rattle.std.specs.Prelude.{◌≡◌, ◌≤◌, ◌++◌, length, OnOk};
ghost use Rattle.tn_nvt.specs.Spelling.{spelling};
ghost use Rattle.tn_serve.specs.services.{NewLines.new_lines, Telnet.{item_of, spelled}};

use crate::services::outbox::Outbox;
use crate::services::sending::{END_OF_FILE, INTERRUPT, QUIT, STOP};
use crate::services::showing::settle;
use std::alloc::{AllocError, Global};
use std::io::Read;
use tn_client::ClientEnd;
use tn_codes::{Command, ECHO, EDIT, LINEMODE, SUPPRESS_GO_AHEAD, TRAPSIG, Verb};
use tn_cores::streams::WindowSize;
use tn_discipline::Limit;
use tn_nvt::{Decoder, Item, MAX_PARAMETERS, put_byte, put_cmd, put_neg, put_newline, put_sub};
use tn_option::{QState, Side};

/// A client that talks Telnet with a service, for both jobs of a session: one shows what the service says, and
/// one sends lines. It agrees to what `ClientEnd` does, but not to an echo: the user's terminal has shown each
/// line.
#[derive(Drop)]
pub(crate) struct TelnetSide {
    alloc: Global,
    /// It reads what the service says, so that words on ECHO do not come to the end.
    decoder: Decoder,
    end: ClientEnd,
    /// Signals go to the service.
    sends_signals: bool,
    /// The text that is to be shown, and how many bytes of it were.
    shown: Vec<u8>,
    shown_len: usize,
    pub(crate) outbox: Outbox,
}

impl TelnetSide {
    pub(crate) fn new(alloc: Global, sends_signals: bool) -> Result<TelnetSide, AllocError> {
        let Ok(end) = ClientEnd::start(alloc, 0, 0, Limit::standard()) else {
            return Err(AllocError);
        };
        Ok(TelnetSide {
            alloc,
            decoder: Decoder::new(alloc),
            end,
            sends_signals,
            shown: Vec::new(alloc),
            shown_len: 0,
            outbox: Outbox::new(alloc),
        })
    }

    /// Takes what the service says, cut anywhere: its text is to be shown, and its words are answered. After a
    /// refusal no more can be taken.
    pub(crate) fn feed(&mut self, bytes: &[u8]) -> Result<(), AllocError> {
        let mut items = Vec::new(self.alloc);
        if self.decoder.feed(bytes, &mut items).is_err() {
            return Err(AllocError);
        }
        let mut said = Vec::new(self.alloc);
        for item in &items {
            self.take(item, &mut said)?;
        }
        self.pass(&said)
    }

    // Takes an item: an echo is refused, and all else is kept for the end.
    fn take(&mut self, item: &Item, said: &mut Vec<u8>) -> Result<(), AllocError> {
        if !offers_echo(item) {
            return put_item(item, said);
        }
        self.pass(said)?;
        said.clear();
        put_neg(Verb::DontIt, ECHO, &mut self.outbox.bytes)
    }

    // Gives bytes that the service said to the end.
    fn pass(&mut self, said: &[u8]) -> Result<(), AllocError> {
        match self.end.feed(said, &mut self.outbox.bytes, &mut self.shown) {
            Ok(()) => Ok(()),
            Err(_) => Err(AllocError),
        }
    }

    /// Copies what is to be shown next, and returns how many bytes it has.
    pub(crate) fn show(&mut self, buf: &mut [u8]) -> usize
        ensures { result ≤ length buf.new }
    {
        let Some(mut left) = self.shown.get(self.shown_len..) else {
            return 0;
        };
        let Ok(count) = left.read(buf) else {
            return 0;
        };
        self.shown_len = self.shown_len.saturating_add(count);
        if self.shown_len >= self.shown.len() {
            self.shown.clear();
            self.shown_len = 0;
        }
        count
    }

    /// Takes the size of the user's window, which the service is told if it asks for that.
    pub(crate) fn resize(&mut self, window: WindowSize) {
        let _ = self
            .end
            .resize(window.width, window.height, &mut self.outbox.bytes);
    }

    /// Has a line sent, or the key of a signal, unless one waits already. Out of memory nothing is sent.
    pub(crate) fn ask(&mut self, line: &[u8]) -> Result<(), AllocError> {
        if self.outbox.has_line {
            return Ok(());
        }
        let before = self.outbox.bytes.len();
        match self.spell(line) {
            Ok(()) => {
                self.outbox.has_line = true;
                Ok(())
            },
            Err(fault) => {
                self.outbox.bytes.truncate(before);
                Err(fault)
            },
        }
    }

    fn spell(&mut self, line: &[u8]) -> Result<(), AllocError> {
        match self.command_of(line) {
            Some(command) => put_cmd(command, &mut self.outbox.bytes),
            None => put_data(self.alloc, line, &mut self.outbox.bytes),
        }
    }

    // The command that goes to the service in place of these bytes, if they are the key of a signal that is
    // sent. Without LINEMODE a service that suppresses GO AHEAD takes keys, and another one takes lines.
    fn command_of(&self, line: &[u8]) -> Option<Command> {
        let [key] = line else {
            return None;
        };
        if !self.sends_signals {
            return None;
        }
        if self.end.option(Side::Us, LINEMODE) == QState::Yes {
            return command_in_mode(self.end.mode(), *key);
        }
        if self.end.option(Side::Them, SUPPRESS_GO_AHEAD) == QState::Yes {
            return None;
        }
        command_by_line(*key)
    }
}

// The service offers to echo what it is sent.
fn offers_echo(item: &Item) -> bool {
    matches!(item, Item::Neg(Verb::Will, ECHO))
}

// The command for the key of a signal while LINEMODE is on with this mask (RFC 1184).
fn command_in_mode(mask: u8, key: u8) -> Option<Command> {
    let traps = mask & TRAPSIG != 0;
    let edits = mask & EDIT != 0;
    match key {
        INTERRUPT if traps => Some(Command::Ip),
        QUIT if traps => Some(Command::Abort),
        STOP if traps => Some(Command::Susp),
        END_OF_FILE if edits => Some(Command::Eof),
        _ => None,
    }
}

// The command for the key of a signal at a client that sends whole lines (RFC 854).
fn command_by_line(key: u8) -> Option<Command> {
    match key {
        INTERRUPT => Some(Command::Ip),
        QUIT => Some(Command::Brk),
        _ => None,
    }
}

// Appends an item as it stands in a stream.
fn put_item(item: &Item, out: &mut Vec<u8>) -> Result<(), AllocError> {
    match item {
        Item::Byte(byte) => put_byte(*byte, out),
        Item::Newline => put_newline(out),
        Item::Cmd(command) => put_cmd(*command, out),
        Item::Neg(verb, option) => put_neg(*verb, *option, out),
        Item::Sub(option, params) => put_params(*option, params.as_slice(), out),
    }
}

// Appends a subnegotiation, which a decoder gives no longer than it may be.
fn put_params(option: u8, params: &[u8], out: &mut Vec<u8>) -> Result<(), AllocError> {
    if params.len() > MAX_PARAMETERS {
        return Ok(());
    }
    put_sub(option, params, out)
}

// Appends bytes as data: LF, and CR LF, as the end of a line.
fn put_data(alloc: Global, bytes: &[u8], out: &mut Vec<u8>) -> Result<(), AllocError>
    ensures { OnOk result (out.new.items ≡ out.old.items ++ spelled (new_lines bytes.now)) }
{
    let text = Vec::with_capacity(alloc, bytes.len() + 1)?;
    let (text, waits) = settle(false, bytes, text);
    put_each(&text, out)?;
    if waits {
        return put_byte(b'\r', out);
    }
    Ok(())
}

fn put_each(bytes: &[u8], out: &mut Vec<u8>) -> Result<(), AllocError>
    ensures { OnOk result (out.new.items ≡ out.old.items ++ spelled bytes.now) }
{
    for byte in bytes {
        put_one(*byte, out)?;
    }
    Ok(())
}

// Appends a byte, of which LF is the end of a line.
fn put_one(byte: u8, out: &mut Vec<u8>) -> Result<(), AllocError>
    ensures { OnOk result (out.new.items ≡ out.old.items ++ spelling (item_of byte)) }
{
    if byte == b'\n' {
        return put_newline(out);
    }
    put_byte(byte, out)
}
