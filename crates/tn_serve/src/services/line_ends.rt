//! The end of a line on its way to the service.

ghost use Rattle.std.specs.Prelude.{◌≡◌, IfOk};
ghost use Rattle.tn_lines.specs.LineEnds.{line_said};

use std::alloc::AllocError;
use tn_discipline::Text;
use tn_lines::LineEnd;

/// Returns the bytes of a line as the service gets them.
pub(crate) fn line_sent(line: Text, line_end: LineEnd) -> Result<Vec<u8>, AllocError>
    ensures { IfOk result (λ bytes. bytes.items ≡ line_said line_end line) }
{
    with_end(Vec::from(line), line_end)
}

// Puts the line end in place of the line feed that closes a line.
fn with_end(mut bytes: Vec<u8>, line_end: LineEnd) -> Result<Vec<u8>, AllocError>
    ensures { IfOk result (λ all. all.items ≡ line_said line_end bytes.items) }
{
    match bytes.pop() {
        None => Ok(bytes),
        Some(b'\n') => {
            bytes.extend_from_slice(line_end.bytes())?;
            Ok(bytes)
        },
        Some(last) => {
            bytes.push(last)?;
            Ok(bytes)
        },
    }
}
