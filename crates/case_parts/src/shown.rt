//! Texts as they are printed.

use anyhow::Result;
use std::io::{self, Write};

/// Prints a text, each line with `|` in front, or with `>` where no line feed ends it.
pub fn text(rt: &HostRuntime, bytes: &[u8]) -> Result<()> {
    let mut out = io::writer(rt);
    for line in bytes.split_inclusive(|byte| *byte == b'\n') {
        if line.ends_with(b"\n".as_slice()) {
            out.write_all(b"|")?;
            out.write_all(line)?;
        } else {
            out.write_all(b">")?;
            out.write_all(line)?;
            out.write_all(b"\n")?;
        }
    }
    Ok(())
}

/// Prints the lines of a text in one line, each with a comma in front.
pub fn in_a_line(rt: &HostRuntime, bytes: &[u8]) -> Result<()> {
    let mut out = io::writer(rt);
    for line in bytes.split_inclusive(|byte| *byte == b'\n') {
        out.write_all(b", ")?;
        out.write_all(line.strip_suffix(b"\n".as_slice()).unwrap_or(line))?;
    }
    out.write_all(b"\n")?;
    Ok(())
}

/// Prints a text without the lines that begin so.
pub fn text_but(rt: &HostRuntime, bytes: &[u8], start: &[u8]) -> Result<()> {
    for line in bytes.split_inclusive(|byte| *byte == b'\n') {
        if !line.starts_with(start) {
            text(rt, line)?;
        }
    }
    Ok(())
}
