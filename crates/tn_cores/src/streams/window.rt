//! The size of a window.

/// The size of a window in characters; 0 leaves a side open (RFC 1073).
#[derive(Clone, Copy, Debug, PartialEq, Eq)]
pub struct WindowSize {
    pub width: u16,
    pub height: u16,
}
