//! The editing keys of a user's terminal in front of a plain one. Each typed key becomes a key of
//! the plain terminal, typed there not at all, once or several times: ERASE takes back a character
//! of UTF-8, for which a plain terminal wants an ERASE a byte, WERASE takes back a word, and
//! REPRINT only shows the line.
//!
//! Begin with `Editor`, which turns typed keys into keys of the plain terminal, and `Drawn`, the
//! half-typed line on a screen.
//!
//! ```
//! let mut editor = Editor::new(alloc, Settings::standard(), edit_keys, Limit::standard())?;
//! editor.key(0xc3); // the key 0xc3, once
//! editor.key(0xa9); // the key 0xa9, once
//! editor.key(0x7f); // the key 0x7f, twice
//! ```
//!
//! The editor draws nothing. `History` keeps the lines that were typed before, and `Arrows`
//! recognizes the keys that ask for them. Only the history and the drawing want memory.
#![tactic(auto)]

pub use cursor_keys::{Arrow, Arrows, Pressed};
pub use drawing::{Drawn, first_character};
pub use edit_keys::{EditKeys, EditRole, Words};
pub use editor::{Editor, Presses};
pub use history::History;

mod characters;
mod columns;
mod cursor_keys;
mod drawing;
mod edit_keys;
mod edited_line;
mod editor;
mod history;
pub mod laws;
