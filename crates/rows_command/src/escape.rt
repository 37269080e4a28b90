//! Bytes as text of one line: `\n` is a line feed, and `\x7f` the byte of two hexadecimal digits.

use anyhow::{Result, bail};
use std::alloc::{AllocError, Global};

/// Returns the value of a hexadecimal digit.
fn digit_of(byte: u8) -> Result<u8> {
    match byte {
        b'0'..=b'9' => Ok(byte - b'0'),
        b'a'..=b'f' => Ok(byte - b'a' + 10),
        _ => bail!("not a digit of an escape"),
    }
}

/// Appends what stands after a backslash: an escape, and bytes that stand for themselves.
fn push_escape(bytes: &mut Vec<u8>, piece: &[u8]) -> Result<()> {
    match piece {
        [b'n', rest @ ..] => {
            bytes.push(b'\n')?;
            bytes.extend_from_slice(rest)?;
        }
        [b'x', high, low, rest @ ..] => {
            bytes.push(digit_of(*high)? << 4 | digit_of(*low)?)?;
            bytes.extend_from_slice(rest)?;
        }
        _ => bail!("not an escape"),
    }
    Ok(())
}

/// Returns the bytes of an escaped text.
pub fn unescaped(alloc: Global, text: &str) -> Result<Vec<u8>> {
    let mut bytes = Vec::new(alloc);
    for (index, piece) in text.split('\\').enumerate() {
        if index == 0 {
            bytes.extend_from_slice(piece.as_bytes())?;
        } else {
            push_escape(&mut bytes, piece.as_bytes())?;
        }
    }
    Ok(bytes)
}

/// Returns these bytes escaped; a line ends after each `\n`.
pub fn escaped(alloc: Global, bytes: &[u8]) -> Result<String, AllocError> {
    let mut text = String::new(alloc);
    for byte in bytes {
        match *byte {
            b'\n' => text.push_str("\\n\n")?,
            b' '..=b'[' | b']'..=b'~' => text.push(char::from(*byte))?,
            byte => write!(text, "\\x{byte:02x}")?,
        }
    }
    Ok(text)
}
