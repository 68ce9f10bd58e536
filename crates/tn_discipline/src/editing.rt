//! Keys that make no entry, one after another, at the parts of a line.
ghost use Rattle.std.specs.Prelude.{◌≡◌, ◌+◌, ◌<◌, ◌≤◌, IsFalse, IsTrue, All, length, take, get_or, vec_len};
ghost use Rattle.std.specs.Prelude.{vec_capacity};
ghost use Rattle.tn_discipline.specs.{Keys.{role_of_key, gives_entry}, Runs.{line_after_all, each_role}};
ghost use Rattle.tn_discipline.specs.HalfLine.{line_after, line_kept, line_erased};
ghost use Rattle.tn_discipline.specs.Editing.{IsQuiet, line_at};
ghost use Rattle.tn_discipline.specs.declared.keys.Role.TheVariants as role;

use crate::keys::Role;
use crate::role_table::Roles;

/// The parts of a line, apart from it: a loop that owns them keeps them in registers, and not in
/// memory.
#[derive(Drop)]
pub(crate) struct Parts {
    pub(crate) held: Vec<u8>,
    pub(crate) ahead: u16,
    pub(crate) limit: u16,
}

/// Types keys up to the first that makes an entry, and returns the parts with how many were typed.
pub(crate) fn edit_front(parts: Parts, roles: &Roles, keys: &[u8]) -> (Parts, usize)
    requires room { parts.limit ≤ vec_capacity parts.held }
    requires fits { parts.ahead + vec_len parts.held < parts.limit }

    ensures within { result.1 ≤ length keys.now }
    ensures quiet { All (IsQuiet roles.now) (take result.1 keys.now) }
    ensures next { result.1 < length keys.now →
        IsTrue (gives_entry (role_of_key roles.now (get_or keys.now result.1 0))) }

    ensures line { let typed = each_role roles.now (take result.1 keys.now) in
        line_at result.0.held.items result.0.ahead result.0.limit
        ≡ line_after_all (line_at parts.held.items parts.ahead parts.limit) typed }
    ensures limit { result.0.limit ≡ parts.limit }
    ensures room { result.0.limit ≤ vec_capacity result.0.held }
    ensures fits { result.0.ahead + vec_len result.0.held < result.0.limit }
{
    let mut parts = parts;
    let mut count = 0;
    for key in keys {
        let role = roles.role(*key);
        if role.gives_entry() {
            return (parts, count);
        }
        edit(&mut parts, role);
        count += 1;
    }
    (parts, count)
}

// Applies a key of this role, which makes no entry.
fn edit(parts: &mut Parts, role: Role)
    requires quiet { IsFalse (gives_entry role) }
    requires room { parts.old.limit ≤ vec_capacity parts.old.held }
    requires fits { parts.old.ahead + vec_len parts.old.held < parts.old.limit }

    ensures line { line_at parts.new.held.items parts.new.ahead parts.new.limit
        ≡ line_after (line_at parts.old.held.items parts.old.ahead parts.old.limit) role }
    ensures limit { parts.new.limit ≡ parts.old.limit }
    ensures room { parts.new.limit ≤ vec_capacity parts.new.held }
    ensures fits { parts.new.ahead + vec_len parts.new.held < parts.new.limit }
{
    match role {
        Role::Ordinary(byte) => keep(parts, byte),
        Role::Erase => erase(parts),
        Role::Kill => {
            parts.held.clear();
            parts.ahead = 0;
        },
        _ => {},
    }
}

fn keep(parts: &mut Parts, byte: u8)
    requires room { parts.old.limit ≤ vec_capacity parts.old.held }
    requires fits { parts.old.ahead + vec_len parts.old.held < parts.old.limit }

    ensures line { line_at parts.new.held.items parts.new.ahead parts.new.limit
        ≡ line_kept (line_at parts.old.held.items parts.old.ahead parts.old.limit) byte }
    ensures limit { parts.new.limit ≡ parts.old.limit }
    ensures room { parts.new.limit ≤ vec_capacity parts.new.held }
    ensures fits { parts.new.ahead + vec_len parts.new.held < parts.new.limit }
{
    let room = parts.limit as usize - parts.ahead as usize - parts.held.len();
    if room > 1 {
        parts.held.push_reserved(byte);
    }
}

fn erase(parts: &mut Parts)
    requires room { parts.old.limit ≤ vec_capacity parts.old.held }
    requires fits { parts.old.ahead + vec_len parts.old.held < parts.old.limit }

    ensures line { line_at parts.new.held.items parts.new.ahead parts.new.limit
        ≡ line_erased (line_at parts.old.held.items parts.old.ahead parts.old.limit) }
    ensures limit { parts.new.limit ≡ parts.old.limit }
    ensures room { parts.new.limit ≤ vec_capacity parts.new.held }
    ensures fits { parts.new.ahead + vec_len parts.new.held < parts.new.limit }
{
    if parts.held.pop().is_none() {
        parts.ahead = parts.ahead.saturating_sub(1);
    }
}
