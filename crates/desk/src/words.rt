// A word of the command line as a number.
ghost use Rattle.std.specs.Prelude.{◌≡◌, SomeIff, ◌<◌};
ghost use Rattle.desk.specs.Numbers.{digit_of, decimal_of};

// Numbers are at most this.
const MOST: usize = 4294967295;

// What a decimal digit stands for.
#[tactic(auto, unfolding(crate::specs::Numbers::digit_of))]
fn digit(b: u8) -> Option<usize>
    ensures { SomeIff result (digit_of b < 10) (digit_of b) }
{
    char::from(b).to_digit(10).map(|d| d as usize)
}

// A word of decimal digits, one at least.
pub fn spelt(word: &[u8]) -> Option<usize>
    ensures { result ≡ decimal_of word.now }
{
    if word.is_empty() {
        return None;
    }
    let mut n = 0;
    for b in word {
        n = n * 10 + digit(*b)?;
        if MOST < n {
            return None;
        }
    }
    Some(n)
}
