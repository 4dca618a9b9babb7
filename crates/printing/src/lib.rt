// What the programs print with: a text goes out piece by piece, and a piece that cannot be written is lost alone. The pieces are those of the
// format: what stands between two values is one. So a value behind a name is another, and a literal stands as an argument where it is one by itself.
#![tactic(auto)]

use std::fmt;
use std::fmt::{InlineText, Write};

#[derive(Drop)]
struct Pieces<'a, P>(&'a P);

impl<'a, P: Print> Write for Pieces<'a, P> {
    fn write_str(&mut self, piece: &str) -> fmt::Result {
        let _ = self.0.write_all(piece.as_bytes());
        Ok(())
    }
}

pub fn say<P: Print>(to: &P, text: impl fmt::Display + Drop) {
    let _ = Pieces(to).write(text);
}

// A number as hex digits, WIDTH of them at least and 8 at most: one piece, with the zeros before it.
#[derive(Clone, Copy)]
pub struct Hex<const WIDTH: usize>(pub u32);

impl<const WIDTH: usize> fmt::Display for Hex<WIDTH> {
    fn fmt<W: fmt::Write>(&self, f: &mut fmt::Formatter<W>) -> fmt::Result {
        let number = self.0;
        f.write_str(InlineText::<8>::of(format_args!("{number:0WIDTH$x}")).as_str())
    }
}
