//! The end of a line on its way to a service.

ghost use Rattle.std.specs.Prelude.{◌≡◌};
ghost use Rattle.tn_lines.specs.LineEnds.{end_bytes};

/// The bytes at the end of each line that a service gets.
#[derive(Clone, Copy, Debug, PartialEq, Eq)]
pub enum LineEnd {
    /// A carriage return and a line feed.
    CrLf,
    /// A line feed.
    Lf,
    /// A carriage return.
    Cr,
}

impl LineEnd {
    /// Returns the bytes of the line end.
    pub fn bytes(self) -> &'static [u8]
        ensures { result.now ≡ end_bytes self }
    {
        match self {
            LineEnd::CrLf => b"\r\n",
            LineEnd::Lf => b"\n",
            LineEnd::Cr => b"\r",
        }
    }
}
