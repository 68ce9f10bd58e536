//! The special characters of a terminal, as the launcher passes them.

ghost use Rattle.std.specs.Prelude.{◌≡◌};
ghost use Rattle.tn_program.specs.Own.{character_as, own_in};

use hex::FromHex;
use tn_connect::{EditKeys, EditorSettings, OwnCharacters, Words};

/// The number of bytes that encode the characters of a terminal.
pub const OWN_LENGTH: usize = 12;

/// Returns the characters that a text encodes: two hexadecimal digits each, of INTR, QUIT, SUSP,
/// ERASE, KILL and EOF, and `00` if there is none.
pub fn own_characters(text: &[u8]) -> Option<OwnCharacters>
    ensures { result ≡ own_in text.now }
{
    let Ok(bytes) = <[u8; 6] as FromHex>::from_hex(text) else {
        return None;
    };
    let [intr, quit, susp, erase, kill, eof] = bytes;
    Some(OwnCharacters {
        intr: character_of(intr),
        quit: character_of(quit),
        susp: character_of(susp),
        erase: character_of(erase),
        kill: character_of(kill),
        eof: character_of(eof),
    })
}

/// The number of bytes that encode how a terminal edits lines.
pub const EDITS_LENGTH: usize = 12;

/// Returns how a terminal edits lines, by a text: two hexadecimal digits each, of WERASE, REPRINT,
/// START and STOP, `00` if there is none, and of whether IUTF8 and ECHOCTL are set.
pub fn editor_settings(text: &[u8]) -> Option<EditorSettings> {
    let bytes = <[u8; 6] as FromHex>::from_hex(text).ok()?;
    let [werase, rprnt, start, stop, iutf8, echoctl] = bytes;
    Some(EditorSettings {
        keys: EditKeys {
            werase: character_of(werase),
            rprnt: character_of(rprnt),
            iutf8: iutf8 != 0,
            words: Words::Symbols,
        },
        start: character_of(start),
        stop: character_of(stop),
        echoctl: echoctl != 0,
        has_history: true,
    })
}

fn character_of(byte: u8) -> Option<u8>
    ensures { result ≡ character_as byte }
{
    if byte == 0 { None } else { Some(byte) }
}
