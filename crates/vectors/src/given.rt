// The octets of a case: words of hex digits in pairs, and words *N, which have the octet before them stand N times in all.
ghost use Rattle.std.specs.Prelude.{◌≡◌, ◌≤◌, take};
ghost use Rattle.vectors.specs.declared.given.TheConstants.{ROOM};

use crate::hex::pair;
use crate::words::number;

// How many octets of a case there is room for. One that there is no room for is left out.
const ROOM: usize = 70000;

// No Vec: the program never stops for lack of memory. And no ArrayVec: its `clear` writes over what was there, and it takes octets in one by one
// or from a slice, so that a word *N takes longer.
#[derive(Drop)]
pub struct Given {
    room: [u8; ROOM],
    len: usize,
    ghost fits: { len ≤ ROOM },
}

impl Given {
    pub fn new() -> Given
        ensures { result.len ≡ 0 }
    {
        Given {
            room: [0; ROOM],
            len: 0,
        }
    }

    pub fn octets(&self) -> &[u8]
        ensures { result.now ≡ take self.now.len self.now.room }
    {
        &self.room[..self.len]
    }

    fn push(&mut self, octet: u8) {
        if self.len < ROOM {
            self.room[self.len] = octet;
            self.len += 1;
        }
    }

    // The last octet so many times in all; as often as it stands where there is no room for that.
    fn repeat(&mut self, times: usize) {
        let Some(last) = self.octets().last().copied() else {
            return;
        };
        let more = times.saturating_sub(1);
        if more <= ROOM - self.len {
            let end = self.len + more;
            self.room[self.len..end].fill(last);
            self.len = end;
        }
    }

    fn word(&mut self, word: &[u8]) {
        match word {
            [b'*', times @ ..] => self.repeat(number(times)),
            _ => {
                for digits in word.chunks_exact(2) {
                    self.push(pair(digits[0], digits[1]));
                }
            }
        }
    }

    // The octets of these words, in place of those before.
    pub fn take(&mut self, words: &[u8]) {
        self.len = 0;
        for word in words.split(|b| *b == b' ') {
            self.word(word);
        }
    }
}
