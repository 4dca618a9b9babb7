// The boundary for C, Rust and Python: numbers and slices alone. Every function answers for any input, and returns the paper's number. A group
// of functions is a crate: `host_telemetry` reads and writes over a saved record, `host_frame` is the part that is sold by itself; `host_words`
// is a saved record's words. This crate is what every group has of set-ups, control words, flags and answers.
#![tactic(auto)]

ghost use Rattle.std.specs.Prelude.{◌≡◌, ◌∷◌, replicate, take};
ghost use Rattle.frame.specs.Answers.{bit};
ghost use Rattle.host.specs.Answer.{given_word, laid_words, set_up_of};

use frame::{ControlWord, SetUp};

// The words that fit into the answer; a longer one keeps the rest.
#[tactic(auto, using(crate::proofs::LayLaws::laid_by))]
pub fn lay(answer: &mut [u32], words: &[u32])
    ensures { answer.new ≡ laid_words answer.old words.now }
{
    let n = answer.len().min(words.len());
    answer[..n].copy_from_slice(&words[..n]);
}

// The answer of a refused call: its number, and zeros behind it.
#[tactic(auto, using(crate::proofs::LayLaws::refused_words))]
pub fn refused_values<const N: usize>(number: u32) -> [u32; N]
    ensures { result ≡ take N (number ∷ replicate N 0) }
{
    let mut values = [0; N];
    lay(&mut values, &[number]);
    values
}

pub fn set_up(length: u32, spacecraft: u32, error_control: u32) -> SetUp
    ensures { result ≡ set_up_of length spacecraft error_control }
{
    SetUp {
        length: length as usize,
        spacecraft,
        error_control: error_control != 0,
    }
}

pub fn control_word(has_word: u32, word: u32) -> Option<ControlWord>
    ensures { result ≡ given_word has_word word }
{
    if has_word == 0 {
        None
    } else {
        Some(ControlWord(word))
    }
}

// `u32::from` by the name that `OneAnswer` has of it.
pub fn flag_word(flag: bool) -> u32
    ensures { result ≡ bit flag }
{
    u32::from(flag)
}
