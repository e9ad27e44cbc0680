//! How an answer shows what was written.
use call_lines::push_bytes;
use std::alloc::{AllocError, Global};

// A text in quotes with escapes, and other bytes in hex; a space is before it.
pub(crate) fn push_written(
    alloc: Global,
    written: &[u8],
    out: &mut String,
) -> Result<(), AllocError> {
    out.push_str(" ")?;
    match str::from_utf8(written) {
        Ok(text) => out.push_str(format!(in alloc; "{text:?}")?.as_str()),
        Err(_) => push_bytes(alloc, written, out),
    }
}

// The same of the output of a run: each line with ` / ` before it, or bytes where it is no text.
pub(crate) fn push_output(
    alloc: Global,
    written: &[u8],
    out: &mut String,
) -> Result<(), AllocError> {
    match str::from_utf8(written) {
        Ok(text) if text.ends_with('\n') => push_lines(text, out),
        _ => {
            out.push_str(" / ")?;
            push_bytes(alloc, written, out)
        }
    }
}

fn push_lines(text: &str, out: &mut String) -> Result<(), AllocError> {
    for line in text.lines() {
        out.push_str(" / ")?;
        out.push_str(line)?;
    }
    Ok(())
}
