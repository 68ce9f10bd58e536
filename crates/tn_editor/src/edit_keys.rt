//! The editing keys that a plain terminal lacks: WERASE and REPRINT, and ERASE by characters.

ghost use Rattle.std.specs.Prelude.{◌≡◌};
ghost use Rattle.tn_editor.specs.EditKeys.{edit_role};

use tn_codes::Func;
use tn_discipline::{Role, Settings};

/// The characters that part words.
#[derive(Clone, Copy, Debug, PartialEq, Eq)]
pub enum Words {
    /// Spaces and tabs.
    Blanks,
    /// All of ASCII but letters, digits and the underline: WERASE after `foo/bar` leaves `foo/`, as at a terminal
    /// of Linux.
    Symbols,
}

/// The editing keys of a user's terminal that are not in its settings.
#[derive(Clone, Copy, Debug, PartialEq, Eq)]
pub struct EditKeys {
    /// WERASE, the character that takes back the last word.
    pub werase: Option<u8>,
    /// REPRINT, the character that shows the line again.
    pub rprnt: Option<u8>,
    /// IUTF8: a line is UTF-8, and ERASE takes back a character of it.
    pub iutf8: bool,
    /// The characters that part words.
    pub words: Words,
}

/// The role of a key at a terminal with editing keys.
#[derive(Clone, Copy, Debug, PartialEq, Eq)]
pub enum EditRole {
    /// The role that the key has at a plain terminal, but ERASE takes back a character.
    Plain(Role),
    /// The key takes back the last word.
    EraseWord,
    /// The key shows the line again.
    Reprint,
}

/// Returns the role of a key that has this role at a plain terminal. A special character of that
/// terminal keeps its meaning. There is no WERASE without an ERASE character, and no REPRINT while
/// ECHO is off.
pub(crate) fn edit_role(settings: &Settings, keys: &EditKeys, role: Role) -> EditRole
    ensures { result ≡ edit_role settings.now keys.now role }
{
    match role {
        Role::Ordinary(byte) => {
            if keys.werase == Some(byte) && settings.chars.get(Func::Ec).is_some() {
                EditRole::EraseWord
            } else if keys.rprnt == Some(byte) && settings.flags.echo {
                EditRole::Reprint
            } else {
                EditRole::Plain(role)
            }
        }
        _ => EditRole::Plain(role),
    }
}
