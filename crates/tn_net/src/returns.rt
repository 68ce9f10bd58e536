//! The bytes that the key RETURN sends.

ghost use Rattle.std.specs.{Prelude.◌≡◌, Str.bytes_eq};
ghost use Rattle.tn_net.specs.Prompting.{return_in};

/// The bytes that the key RETURN sends if keys go one at a time (RFC 1123, section 3.3.1).
#[derive(Clone, Copy, Debug, PartialEq, Eq)]
pub enum ReturnKey {
    CrNul,
    CrLf,
    Lf,
}

impl ReturnKey {
    /// Returns what a line to the client itself asks RETURN to send.
    pub(crate) fn asked(line: &[u8]) -> Option<ReturnKey>
        ensures { result ≡ return_in line.now }
    {
        if is(line, b"return crnul") {
            return Some(ReturnKey::CrNul);
        }
        if is(line, b"return crlf") {
            return Some(ReturnKey::CrLf);
        }
        if is(line, b"return lf") {
            return Some(ReturnKey::Lf);
        }
        None
    }

    /// Returns the name that a user sees.
    pub(crate) fn name(self) -> &'static str {
        match self {
            ReturnKey::CrNul => "CR NUL",
            ReturnKey::CrLf => "CR LF",
            ReturnKey::Lf => "LF",
        }
    }
}

/// Returns whether a line is this word.
pub(crate) fn is(line: &[u8], word: &[u8]) -> bool
    ensures { result ≡ bytes_eq line.now word.now }
{
    line == word
}
