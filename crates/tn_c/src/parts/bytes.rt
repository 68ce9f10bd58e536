//! Copies bytes to a caller's buffer.

ghost use Rattle.std.specs.Prelude.{◌≡◌, length, drop};
ghost use Rattle.tn_c.specs.parts.Bytes.{Copies, Gives};

/// Copies the first bytes, as many as fit, and returns how many.
pub(crate) fn copy_front(bytes: &[u8], buf: &mut [u8]) -> usize
    ensures { Copies bytes.now buf.old buf.new result }
{
    let count = bytes.len().min(buf.len());
    buf[..count].copy_from_slice(&bytes[..count]);
    count
}

/// Copies the first bytes, as many as fit, and returns how many there are.
pub(crate) fn give(bytes: &[u8], buf: &mut [u8]) -> usize
    ensures { Gives bytes.now buf.old buf.new result }
{
    copy_front(bytes, buf);
    bytes.len()
}

/// Drops the first bytes, at most `count` of them: the others stay.
pub(crate) fn drop_front(bytes: &mut Vec<u8>, count: usize)
    ensures { bytes.new.items ≡ drop count bytes.old.items }
{
    if count >= bytes.len() {
        bytes.clear();
        return;
    }
    drop(bytes.drain(..count));
}

/// Moves the first bytes, as many as fit, and returns how many: the others stay.
pub(crate) fn move_front(bytes: &mut Vec<u8>, buf: &mut [u8]) -> usize
    ensures copies { Copies bytes.old.items buf.old buf.new result }
    ensures stay { bytes.new.items ≡ drop result bytes.old.items }
{
    let count = copy_front(bytes.as_slice(), buf);
    drop_front(bytes, count);
    count
}
