// Words of a line, parted by spaces.

// The first word, and what stands behind its space.
pub fn cut(line: &[u8]) -> (&[u8], &[u8]) {
    match line.iter().position(|b| *b == b' ') {
        Some(n) => (&line[..n], &line[n + 1..]),
        None => (line, &[]),
    }
}

// A number of at most seven digits.
pub fn number(word: &[u8]) -> usize {
    word.iter()
        .fold(0, |n, b| n % 1000000 * 10 + usize::from(*b % 16))
}
