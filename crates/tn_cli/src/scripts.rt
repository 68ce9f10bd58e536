//! Reads the lines of a world's script.

ghost use Rattle.std.specs.Prelude.{◌≡◌, ◌==◌, IfOk, bytes_eq, map, option_and_then};
ghost use Rattle.std.specs.List.{slice_split, list_all};
ghost use Rattle.tn_cli.specs.Scripts as script;

use hex::FromHexError;
use std::alloc::{AllocError, Global};
use tn_client::UserCommand;
use tn_codes::{Func, Mask};
use tn_discipline::Text;
use tn_server::Editing;
use tn_world::Event;

/// The greatest count of bytes or symbols in a line.
const MAX_COUNTED: u32 = 1_000_000;

/// The greatest width or height in a line.
const MAX_SIZE: u32 = 65_535;

/// The most octets of a forward mask.
const MAX_OCTETS: usize = 32;

/// The command of one line of a script.
#[derive(Drop)]
pub(crate) enum Command {
    /// The user types these keys.
    Keys(Text),
    /// One event, which prints nothing.
    Happen(Event),
    /// All that is in flight is delivered, until nothing is.
    Settle,
    /// The job asks for an entry, which is printed.
    Take,
    /// Whether all is at rest is printed.
    Mark,
    /// The bytes in flight are printed.
    Flight,
    /// The server's text on the client's screen is printed.
    Shown,
}

/// Returns the parts of some bytes that this byte separates.
pub(crate) fn parts<'a>(
    alloc: Global,
    bytes: &'a [u8],
    mark: u8,
) -> Result<Vec<&'a [u8]>, AllocError>
    ensures { IfOk result (λ parts.
        map (λ part. part.now) parts.items ≡ slice_split (λ byte. byte == mark) bytes.entry.now) }
{
    bytes.split(|byte| *byte == mark).collect(alloc)
}

/// Returns the command in a line, if it is one.
pub(crate) fn read_command(alloc: Global, line: &[u8]) -> Result<Option<Command>, AllocError>
    ensures { IfOk result (λ command. command ≡ script.command_of line.now) }
{
    let words = parts(alloc, line, b' ')?;
    command_of_words(alloc, &words)
}

fn command_of_words(alloc: Global, words: &[&[u8]]) -> Result<Option<Command>, AllocError>
    ensures { IfOk result (λ command.
        command ≡ script.command_of_words (map (λ word. word.now) words.now)) }
{
    match words {
        [verb] => Ok(alone(verb)),
        [verb, word] => with_word(alloc, verb, word),
        [verb, first, second] => with_words(alloc, verb, first, second),
        [] => Ok(None),
        [_, _, _, _, ..] => Ok(None),
    }
}

// The value next to the name that this word equals, if it equals one.
macro_rules! value_of_word {
    ($word:expr; $($name:literal => $value:expr,)+) => {{
        $(if is_word($word, $name) {
            return Some($value);
        })+
        None
    }};
}

fn is_word(word: &[u8], name: &[u8]) -> bool
    ensures { result ≡ bytes_eq word.now name.now }
{
    word == name
}

fn alone(verb: &[u8]) -> Option<Command>
    ensures { result ≡ script.alone verb.now }
{
    value_of_word! { verb;
        b"settle" => Command::Settle,
        b"take" => Command::Take,
        b"mark" => Command::Mark,
        b"flight" => Command::Flight,
        b"shown" => Command::Shown,
        b"server-stops" => Command::Happen(Event::ServerStops),
        b"client-stops" => Command::Happen(Event::ClientStops),
    }
}

fn with_word(alloc: Global, verb: &[u8], word: &[u8]) -> Result<Option<Command>, AllocError>
    ensures { IfOk result (λ command. command ≡ script.with_word verb.now word.now) }
{
    if let Some(command) = with_name(verb, word) {
        return Ok(Some(command));
    }
    if let Some(command) = counted(verb, word) {
        return Ok(Some(command));
    }
    match hex_bytes(alloc, word)? {
        Some(bytes) => Ok(with_bytes(verb, bytes)),
        None => Ok(None),
    }
}

fn with_name(verb: &[u8], name: &[u8]) -> Option<Command>
    ensures { result ≡ script.with_name verb.now name.now }
{
    if is_word(verb, b"wish") {
        return wished(name);
    }
    if is_word(verb, b"echo") {
        return echoed(name);
    }
    if is_word(verb, b"mask") {
        return unmasked(name);
    }
    if is_word(verb, b"send") {
        return sent(name);
    }
    None
}

fn wished(name: &[u8]) -> Option<Command>
    ensures { result ≡ script.wish_command name.now }
{
    value_of_word! { name;
        b"local" => Command::Happen(Event::Wish(Editing::Local)),
        b"remote" => Command::Happen(Event::Wish(Editing::Remote)),
    }
}

fn echoed(name: &[u8]) -> Option<Command>
    ensures { result ≡ script.echo_command name.now }
{
    value_of_word! { name;
        b"on" => Command::Happen(Event::Echo(true)),
        b"off" => Command::Happen(Event::Echo(false)),
    }
}

fn unmasked(name: &[u8]) -> Option<Command>
    ensures { result ≡ script.mask_command name.now }
{
    value_of_word! { name;
        b"off" => Command::Happen(Event::Mask(None)),
    }
}

fn sent(name: &[u8]) -> Option<Command>
    ensures { result ≡ script.send_command name.now }
{
    value_of_word! { name;
        b"brk" => Command::Happen(Event::Send(UserCommand::Brk)),
        b"ip" => Command::Happen(Event::Send(UserCommand::Ip)),
        b"ayt" => Command::Happen(Event::Send(UserCommand::Ayt)),
        b"nop" => Command::Happen(Event::Send(UserCommand::Nop)),
    }
}

fn counted(verb: &[u8], word: &[u8]) -> Option<Command>
    ensures { result ≡
        option_and_then (script.with_number verb.now) (script.number_within 1000000 word.now) }
{
    let number = number_within(MAX_COUNTED, word)?;
    with_number(verb, number as usize)
}

fn with_number(verb: &[u8], number: usize) -> Option<Command>
    ensures { result ≡ script.with_number verb.now number }
{
    value_of_word! { verb;
        b"to-server" => Command::Happen(Event::ToServer(number)),
        b"to-client" => Command::Happen(Event::ToClient(number)),
        b"pull" => Command::Happen(Event::Pull(number)),
    }
}

fn with_bytes(verb: &[u8], bytes: Text) -> Option<Command>
    ensures { result ≡ script.with_bytes verb.now bytes }
{
    if is_word(verb, b"key") {
        return Some(Command::Keys(bytes));
    }
    if is_word(verb, b"write") {
        return Some(Command::Happen(Event::Write(bytes)));
    }
    if is_word(verb, b"mask") {
        return masked(bytes.as_slice());
    }
    None
}

fn masked(octets: &[u8]) -> Option<Command>
    ensures { result ≡ script.forward_command octets.now }
{
    if octets.len() > MAX_OCTETS {
        return None;
    }
    Some(Command::Happen(Event::Mask(Some(Mask::from_octets(octets)))))
}

fn with_words(
    alloc: Global,
    verb: &[u8],
    first: &[u8],
    second: &[u8],
) -> Result<Option<Command>, AllocError>
    ensures { IfOk result (λ command. command ≡ script.with_words verb.now first.now second.now) }
{
    if let Some(command) = resized(verb, first, second) {
        return Ok(Some(command));
    }
    let Some(func) = func_named(first) else {
        return Ok(None);
    };
    match hex_bytes(alloc, second)? {
        Some(bytes) => Ok(with_value(verb, func, bytes.as_slice())),
        None => Ok(None),
    }
}

fn resized(verb: &[u8], first: &[u8], second: &[u8]) -> Option<Command>
    ensures { result ≡ script.resize_command verb.now first.now second.now }
{
    let width = number_within(MAX_SIZE, first)?;
    let height = number_within(MAX_SIZE, second)?;
    with_size(verb, width as u16, height as u16)
}

fn with_size(verb: &[u8], width: u16, height: u16) -> Option<Command>
    ensures { result ≡ script.with_size verb.now width height }
{
    value_of_word! { verb;
        b"resize" => Command::Happen(Event::Resize(width, height)),
    }
}

fn with_value(verb: &[u8], func: Func, bytes: &[u8]) -> Option<Command>
    ensures { result ≡
        option_and_then (script.with_character verb.now func) (script.character bytes.now) }
{
    let value = character(bytes)?;
    with_character(verb, func, value)
}

fn with_character(verb: &[u8], func: Func, value: Option<u8>) -> Option<Command>
    ensures { result ≡ script.with_character verb.now func value }
{
    value_of_word! { verb;
        b"set" => Command::Happen(Event::SetChar(func, value)),
        b"propose" => Command::Happen(Event::Propose(func, value)),
    }
}

fn func_named(name: &[u8]) -> Option<Func>
    ensures { result ≡ script.func_named name.now }
{
    value_of_word! { name;
        b"ip" => Func::Ip,
        b"abort" => Func::Abort,
        b"eof" => Func::Eof,
        b"susp" => Func::Susp,
        b"ec" => Func::Ec,
        b"el" => Func::El,
        b"forw1" => Func::Forw1,
        b"forw2" => Func::Forw2,
    }
}

// Returns a special character, which is one byte; 255 disables the character.
fn character(bytes: &[u8]) -> Option<Option<u8>>
    ensures { result ≡ script.character bytes.now }
{
    match bytes {
        [255] => Some(None),
        [byte] => Some(Some(*byte)),
        _ => None,
    }
}

// Returns the number that decimal digits spell, if it is within a limit. No sign is allowed;
// leading zeros are.
fn number_within(most: u32, word: &[u8]) -> Option<u32>
    ensures { result ≡ script.number_within most word.now }
{
    if word.is_empty() {
        return None;
    }
    let mut number: u64 = 0;
    for digit in word {
        if !digit.is_ascii_digit() {
            return None;
        }
        number = number * 10 + u64::from(*digit - b'0');
        if number > u64::from(most) {
            return None;
        }
    }
    Some(number as u32)
}

// Returns the bytes that pairs of lower-case hexadecimal digits spell; at least one byte.
fn hex_bytes(alloc: Global, word: &[u8]) -> Result<Option<Text>, AllocError>
    ensures { IfOk result (λ bytes. bytes ≡ script.hex_bytes word.now) }
{
    if word.is_empty() {
        return Ok(None);
    }
    if !are_lower_digits(word) {
        return Ok(None);
    }
    match hex::decode(alloc, word) {
        Ok(bytes) => Ok(Some(Text::from(bytes))),
        Err(FromHexError::OutOfMemory) => Err(AllocError),
        Err(_) => Ok(None),
    }
}

fn are_lower_digits(word: &[u8]) -> bool
    ensures { result ≡ list_all script.is_lower_digit word.now }
{
    word.iter().all(|digit| is_lower_digit(*digit))
}

fn is_lower_digit(digit: u8) -> bool
    ensures { result ≡ script.is_lower_digit digit }
{
    digit.is_ascii_digit() || (b'a'..=b'f').contains(&digit)
}
