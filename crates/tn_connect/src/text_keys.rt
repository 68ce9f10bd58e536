//! Keys that are the bytes of a text: RETURN ends each of its lines, whatever ends it in the text.

ghost use Rattle.std.specs.Prelude.{◌≡◌, ◌≤◌, ◌++◌, List, ℕ, false, length, option_to_list, take};
ghost use Rattle.tn_connect.specs.Texts.{key_of_text, keys_of_text, with_text};

use std::io;
use std::io::{ErrorKind, Read};

/// The number of bytes that are read at once.
const PIECE_BYTES: usize = 4_096;

/// The keys that the bytes of a reader are; of a text CR LF is one RETURN, and so is LF.
#[derive(Drop)]
pub(crate) struct TextKeys<K> {
    keys: K,
    is_text: bool,
    /// The last byte was CR.
    after_return: bool,
}

impl<K> TextKeys<K> {
    /// Makes keys of this reader's bytes.
    pub(crate) fn new(keys: K, is_text: bool) -> TextKeys<K>
        ensures { result ≡ record { keys = keys; is_text = is_text; after_return = false } }
    {
        TextKeys {
            keys,
            is_text,
            after_return: false,
        }
    }
}

// Writes the keys that these bytes of a text are to the front of a buffer. Returns how many they are, and
// whether the last byte was CR.
fn keys_of(after_return: bool, bytes: &[u8], buf: &mut [u8]) -> (usize, bool)
    requires { length bytes.now ≤ length buf.old }
    ensures bound { result.0 ≤ length buf.new }
    ensures keys { (rest : List ℕ) → take result.0 buf.new ++ keys_of_text result.1 rest
        ≡ keys_of_text after_return (bytes.now ++ rest) }
{
    let mut count = 0usize;
    let mut after = after_return;
    for place in 0..bytes.len() {
        let key = key_of(after, bytes[place]);
        after = bytes[place] == b'\r';
        match key {
            Some(key) => {
                buf[count] = key;
                count += 1;
            },
            None => {},
        }
    }
    (count, after)
}

// Returns the key that a byte of a text is, if it is one.
fn key_of(after_return: bool, byte: u8) -> Option<u8>
    ensures { option_to_list result ≡ key_of_text after_return byte }
{
    match (byte, after_return) {
        (b'\n', true) => None,
        (b'\n', false) => Some(b'\r'),
        _ => Some(byte),
    }
}

impl<K: Read> Read for TextKeys<K> {
    ghost remaining = { λ k. with_text k.is_text k.after_return (K.Read.remaining k.keys) };

    fn read(&mut self, buf: &mut [u8]) -> io::Result<usize> {
        if !self.is_text {
            return self.keys.read(buf);
        }
        let mut piece = [0; PIECE_BYTES];
        let most = buf.len().min(PIECE_BYTES);
        let came = self.keys.read(&mut piece[..most])?;
        if came == 0 {
            return Ok(0);
        }
        let (count, after) = keys_of(self.after_return, &piece[..came], buf);
        self.after_return = after;
        if count == 0 {
            return Err(io::Error::from(ErrorKind::Interrupted));
        }
        Ok(count)
    }
}
