//! Laws of lines on their way to a service, only over the definitions.

ghost use Rattle.std.specs.Prelude.{◌≡◌, false, ℕ, List, [], ◌∷◌, ◌++◌};
ghost use Rattle.tn_lines.specs.{Said.{ends_in_return, said_from}, LineEnds.{end_bytes, line_said}};
ghost use Rattle.tn_lines.specs.declared.line_ends.LineEnd.{LineEnd};

/// A line that a line feed closes is its bytes and the line end.
pub fn each_line_has_its_end()
    ensures { (line_end : LineEnd) (bytes : List ℕ) →
        line_said line_end (bytes ++ 10 ∷ []) ≡ bytes ++ end_bytes line_end }
{}

/// A service gets equal bytes of lines, however the lines are cut.
pub fn lines_are_read_in_pieces()
    ensures { (line_end : LineEnd) (bytes more : List ℕ) →
        said_from line_end false (bytes ++ more)
        ≡ said_from line_end false bytes ++ said_from line_end (ends_in_return false bytes) more }
{}
