// A case: its command with the numbers, and the words that are its octets.
use crate::words::{cut, number};

#[derive(Clone, Copy)]
pub enum Command {
    Chain,
    Distance(usize),
    Gap(usize, usize),
    Header,
    Size,
    Walk(usize, usize),
}

// From the first letter and what follows it. A letter of no command reads as a walk's, whose numbers are then octets too.
pub fn read(letter: u8, line: &[u8]) -> (Command, &[u8]) {
    let (_, words) = cut(line);
    let (first, after_first) = cut(words);
    let (second, after_second) = cut(after_first);
    let (a, b) = (number(first), number(second));
    match letter {
        b'c' => (Command::Chain, words),
        b'd' => (Command::Distance(a), after_first),
        b'g' => (Command::Gap(a, b), after_second),
        b'h' => (Command::Header, words),
        b's' => (Command::Size, words),
        b'w' => (Command::Walk(a, b), after_second),
        _ => (Command::Walk(a, b), words),
    }
}
