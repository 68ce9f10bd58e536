//! The options of a server and of its sessions.

ghost use Rattle.std.specs.Prelude.{◌≡◌, IsFalse};
ghost use Rattle.tn_discipline.specs.Limits.{standard_limit};

use tn_discipline::Limit;
use tn_server::{Editing, Opening};

/// The options that all sessions of a server share.
#[derive(Clone, Copy, PartialEq, Eq)]
pub struct SessionOptions {
    /// The most bytes that a line has, from 255 to 4,095.
    pub line_limit: Limit,
    /// What is asked of a client without LINEMODE: keys, or lines that it edits itself.
    pub opening: Opening,
    /// The side at which the client is asked to edit.
    pub editing: Editing,
    /// The number of seconds after which a session ends as by a hang-up, if the client sends
    /// nothing in them that reaches the terminal; 0 for never.
    pub idle: u32,
    /// The number of seconds after which a session ends as by a hang-up; 0 for never.
    pub longest: u32,
}

impl SessionOptions {
    /// Makes the standard options: lines of the standard limit, which the server edits, keys of a
    /// client without LINEMODE, and no limit of time.
    pub fn standard() -> SessionOptions
        ensures line_limit { result.line_limit ≡ standard_limit }
        ensures opening { result.opening ≡ Opening.Keys }
        ensures editing { result.editing ≡ Editing.Remote }
        ensures idle { result.idle ≡ 0 }
        ensures longest { result.longest ≡ 0 }
    {
        SessionOptions {
            line_limit: Limit::standard(),
            opening: Opening::Keys,
            editing: Editing::Remote,
            idle: 0,
            longest: 0,
        }
    }
}

/// The options of a server.
#[derive(Clone, Copy, PartialEq, Eq)]
pub struct Serving {
    /// The most sessions at once, of 1 to 64.
    pub sessions: u16,
    /// The most sessions at once from one host, of 1 to 64.
    pub per_host: u16,
    /// The number of accepted connections after which to end.
    pub count: u64,
    /// The number of seconds that sessions have to end once no more connections are to come; 0 sets
    /// no limit. After it their last words are `closing`.
    pub drain: u32,
    /// Whether each connection is of a proxy, and begins with a line that names its client (the
    /// PROXY protocol, version 1). A connection that has no such line within a second is closed.
    pub is_proxied: bool,
    /// Whether others have the listener too, as one with which the process was started. It is left
    /// to them as it is.
    pub is_handed: bool,
    pub options: SessionOptions,
}

/// The most sessions at once if nothing else is asked for; from one host there may be as many as of
/// all.
const SESSIONS: u16 = 8;

const PER_HOST: u16 = 64;

/// The number of seconds that sessions have to end, if nothing else is asked for.
const DRAIN: u32 = 5;

impl Serving {
    /// Makes the options for one connection, with the standard options of a session.
    pub fn standard() -> Serving
        ensures sessions { result.sessions ≡ 8 }
        ensures per_host { result.per_host ≡ 64 }
        ensures count { result.count ≡ 1 }
        ensures drain { result.drain ≡ 5 }
        ensures proxied { IsFalse result.is_proxied }
        ensures line_limit { result.options.line_limit ≡ standard_limit }
        ensures opening { result.options.opening ≡ Opening.Keys }
        ensures editing { result.options.editing ≡ Editing.Remote }
        ensures idle { result.options.idle ≡ 0 }
        ensures longest { result.options.longest ≡ 0 }
    {
        Serving {
            sessions: SESSIONS,
            per_host: PER_HOST,
            count: 1,
            drain: DRAIN,
            is_proxied: false,
            is_handed: false,
            options: SessionOptions::standard(),
        }
    }
}
