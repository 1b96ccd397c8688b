ghost use Rattle.std.specs.Prelude.{◌≡◌};
ghost use Rattle.journal.specs.Ends.{without, line_of};

// The bytes without the byte at their end, where that is the given one.
fn without(bytes: &[u8], end: u8) -> &[u8]
    ensures { result.now ≡ without end bytes.now }
{
    bytes.strip_suffix(&[end]).unwrap_or(bytes)
}

/// A line without its end: a line feed, a carriage return and a line feed, or none.
pub fn line_of(bytes: &[u8]) -> &[u8]
    ensures { result.now ≡ line_of bytes.now }
{
    without(without(bytes, b'\n'), b'\r')
}
