// Octets as hex digits.
use std::fmt;

// What a hex digit stands for: the codes of 0 and A are 48 and 65.
fn digit(b: u8) -> u8 {
    if b < b'A' { b % 16 } else { b % 16 + 9 }
}

pub fn pair(high: u8, low: u8) -> u8 {
    digit(high) % 16 * 16 + digit(low) % 16
}

// Octets to be printed, each a piece.
#[derive(Clone, Copy)]
pub struct Hex<'a>(pub &'a [u8]);

impl<'a> fmt::Display for Hex<'a> {
    fn fmt<W: fmt::Write>(&self, f: &mut fmt::Formatter<W>) -> fmt::Result {
        for b in self.0 {
            write!(f, "{}", printing::Hex::<2>(u32::from(*b)))?;
        }
        Ok(())
    }
}
