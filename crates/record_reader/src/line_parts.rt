//! The front of a line, and what stands behind it.

ghost use Rattle.std.specs.Prelude.{◌≡◌, take, drop};

/// At most so many bytes from the front.
pub fn front(line: &[u8], count: usize) -> &[u8]
    ensures { result.now ≡ take count line.now }
{
    if line.len() < count {
        line
    } else {
        &line[..count]
    }
}

/// What stands behind so many bytes.
pub fn behind(line: &[u8], count: usize) -> &[u8]
    ensures { result.now ≡ drop count line.now }
{
    if line.len() < count {
        &[]
    } else {
        &line[count..]
    }
}
