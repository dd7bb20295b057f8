//! Bytes, as rows show them.
use std::{fmt, str};

/// Bytes in hex, two digits each; `-` where there are none.
#[derive(Clone, Copy)]
pub(crate) struct Digits<'a>(pub(crate) &'a [u8]);

impl fmt::Display for Digits<'_> {
    fn fmt<W: fmt::Write>(&self, f: &mut fmt::Formatter<W>) -> fmt::Result {
        if self.0.is_empty() {
            return f.write_str("-");
        }
        for byte in self.0 {
            write!(f, "{byte:02x}")?;
        }
        Ok(())
    }
}

/// Bytes as the ASCII text that they are, or in hex where one of them is above 0x7f.
#[derive(Clone, Copy)]
pub(crate) struct Text<'a>(pub(crate) &'a [u8]);

impl fmt::Display for Text<'_> {
    fn fmt<W: fmt::Write>(&self, f: &mut fmt::Formatter<W>) -> fmt::Result {
        match str::from_utf8(self.0) {
            Ok(text) if text.is_ascii() => f.write_str(text),
            _ => write!(f, "{}", Digits(self.0)),
        }
    }
}
