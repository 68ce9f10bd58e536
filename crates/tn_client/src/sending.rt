//! Appends the bytes that a client end sends.

ghost use Rattle.std.specs.Prelude.{◌≡◌, ◌≢◌, ◌<◌, ◌≤◌, ◌++◌, [], Some, length, flat_map, vec_capacity, OnOk};
ghost use Rattle.std.specs.Prelude.{OnErr};
ghost use Rattle.tn_nvt.specs.{Room.LacksRoom, Spelling.{spells, spelling}};
ghost use Rattle.tn_nvt.specs.declared.items.Item.TheVariants as item;
ghost use Rattle.tn_client.specs.Replies.{byte_items, func_of, command_for, command_of, command_items};
ghost use Rattle.tn_client.specs.{Replies.{raw_items, sent_as, edited_key_items}, Steps.Begins};

use std::alloc::AllocError;
use tn_codes::{Command, Func};
use tn_discipline::{Line, Role, Sig, special_characters};
use tn_nvt::{put_byte, put_cmd, put_newline};

macro_rules! commands {
    ($wanted:expr, $($func:ident $name:ident [$($command:ident)?] = $standard:expr),*) => {
        match $wanted {
            $($(Func::$func => Some(Command::$command),)?)*
            _ => None,
        }
    };
}

// Returns the function whose character has this role.
fn func_of(role: Role) -> Option<Func>
    ensures { result ≡ func_of role }
{
    match role {
        Role::Signal(Sig::Int) => Some(Func::Ip),
        Role::Signal(Sig::Quit) => Some(Func::Abort),
        Role::Signal(Sig::Tstp) => Some(Func::Susp),
        Role::Eof => Some(Func::Eof),
        Role::Erase => Some(Func::Ec),
        Role::Kill => Some(Func::El),
        Role::Ignored | Role::Nl | Role::Eol(_) | Role::Eol2(_) | Role::Ordinary(_) => None,
    }
}

// Returns the command that stands for a key of this role.
fn command_of(role: Role) -> Option<Command>
    ensures { result ≡ command_of role }
{
    match func_of(role) {
        Some(func) => command_for(func),
        None => None,
    }
}

fn command_for(func: Func) -> Option<Command>
    ensures { result ≡ command_for (Some func) }
{
    special_characters!(commands, func)
}

fn put_command(role: Role, out: &mut Vec<u8>) -> Result<(), AllocError>
    ensures ok { OnOk result (out.new.items ≡ out.old.items ++ spells (command_items (command_of role))) }
    ensures err { OnErr result (out.new.items ≡ out.old.items) }
    ensures full { OnErr result (LacksRoom out.old (length (spells (command_items (command_of role))))) }
    ensures capacity { vec_capacity out.old ≤ vec_capacity out.new }
{
    match command_of(role) {
        Some(command) => put_cmd(command, out),
        None => Ok(()),
    }
}

/// Appends a key that is sent at once, as CR LF if it is a new line.
pub(crate) fn put_raw(
    role: Role,
    key: u8,
    is_line: bool,
    out: &mut Vec<u8>,
) -> Result<(), AllocError>
    ensures ok { OnOk result
        (out.new.items ≡ out.old.items ++ spells (raw_items role (sent_as is_line key))) }
    ensures err { OnErr result (out.new.items ≡ out.old.items) }
    ensures full { OnErr result
        (LacksRoom out.old (length (spells (raw_items role (sent_as is_line key))))) }
{
    if matches!(role, Role::Signal(_)) {
        return put_command(role, out);
    }
    if is_line {
        return put_newline(out);
    }
    put_byte(key, out)
}

// Appends bytes of data. After a refusal the bytes begin as they did.
fn put_each(bytes: &[u8], out: &mut Vec<u8>) -> Result<(), AllocError>
    ensures ok { OnOk result
        (out.new.items ≡ out.old.items ++ flat_map (λ byte. spelling (item.Byte byte)) bytes.now) }
    ensures err { OnErr result (Begins out.old.items out.new.items) }
    ensures grows { OnErr result (0 < length bytes.now) }
    ensures full { let spelled = flat_map (λ byte. spelling (item.Byte byte)) bytes.now in
        OnErr result (LacksRoom out.old (length spelled)) }
    ensures capacity { vec_capacity out.old ≤ vec_capacity out.new }
{
    for byte in bytes {
        put_byte(*byte, out)?;
    }
    Ok(())
}

/// Appends bytes of data.
pub(crate) fn put_bytes(bytes: &[u8], out: &mut Vec<u8>) -> Result<(), AllocError>
    ensures ok { OnOk result (out.new.items ≡ out.old.items ++ spells (byte_items bytes.now)) }
    ensures err { OnErr result (out.new.items ≡ out.old.items) }
    ensures grows { OnErr result (byte_items bytes.now ≢ []) }
    ensures full { OnErr result (LacksRoom out.old (length (spells (byte_items bytes.now)))) }
    ensures capacity { vec_capacity out.old ≤ vec_capacity out.new }
{
    let sent = out.len();
    match put_each(bytes, out) {
        Ok(()) => Ok(()),
        Err(fault) => {
            out.truncate(sent);
            Err(fault)
        },
    }
}

/// Appends the bytes of the line that a key of this role sends, before it changes the line. After a
/// refusal the bytes that were sent begin as they did.
pub(crate) fn put_edited(role: Role, line: &Line, out: &mut Vec<u8>) -> Result<(), AllocError>
    ensures ok { OnOk result (out.new.items ≡ out.old.items ++ spells (edited_key_items role line.now)) }
    ensures err { OnErr result (Begins out.old.items out.new.items) }
    ensures full { OnErr result (LacksRoom out.old (length (spells (edited_key_items role line.now)))) }
    ensures capacity { vec_capacity out.old ≤ vec_capacity out.new }
{
    match role {
        Role::Nl => {
            put_bytes(line.held(), out)?;
            put_newline(out)
        },
        Role::Eol(byte) | Role::Eol2(byte) => {
            put_bytes(line.held(), out)?;
            put_byte(byte, out)
        },
        Role::Eof => {
            put_bytes(line.held(), out)?;
            put_command(role, out)
        },
        Role::Signal(_) => put_command(role, out),
        Role::Erase if line.held().is_empty() && line.ahead() > 0 => put_command(role, out),
        Role::Kill if line.ahead() > 0 => put_command(role, out),
        Role::Erase | Role::Kill | Role::Ignored | Role::Ordinary(_) => Ok(()),
    }
}
