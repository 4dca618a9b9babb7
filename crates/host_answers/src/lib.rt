// What a reading or a writing leaves in the words that are lent for its answer and for the saved record.
#![tactic(auto)]

ghost use Rattle.std.specs.Prelude.{◌≡◌, [], ◌∷◌, ◌^◌, ◌<◌, Ok};
ghost use Rattle.reading.specs.Answers.{kind_number, values_of};
ghost use Rattle.writing.specs.Answers.{answer_number, values_of as write_values};
ghost use Rattle.host_answers.specs.Answer.{Lays, ReportFits, read_number, saved_by};
ghost use Rattle.host.specs.Answer.{laid_words};

use channel::Record;
use host::{flag_word, lay, refused_values};
use host_words::pack;
use reading::{Kind, Outcome, Report};
use writing::{Place, Refusal, Written};

fn kind_word(kind: Kind) -> u32
    ensures { result ≡ kind_number kind }
{
    kind as u32
}

// Written out, as host_frame's `frame_values` is, which says why.
#[tactic(auto, unfolding(reading::specs::Answers::values_of))]
fn report_values(a: Report) -> [u32; 20]
    requires { ReportFits a }
    ensures { result ≡ values_of (Ok a) }
{
    let h = a.header;
    [
        0,
        kind_word(a.kind),
        h.spacecraft,
        h.channel as u32,
        flag_word(h.flagged),
        u32::from(h.master.0),
        u32::from(h.count.0),
        flag_word(h.secondary),
        flag_word(h.synchronisation),
        flag_word(h.order),
        u32::from(h.segment),
        h.pointer as u32,
        a.word,
        u32::from(a.gap),
        a.delivered as u32,
        a.idle as u32,
        a.broken as u32,
        a.disagreement as u32,
        a.foreign as u32,
        a.oversize as u32,
    ]
}

// Lays down what a reading gave: its answer, and the new record unless it was refused.
#[tactic(auto, unfolding(reading::specs::Answers::values_of))]
pub fn answer_read(o: Outcome, words: &mut [u32], answer: &mut [u32]) -> u32
    requires { Lays o.answer o.after words.old }
    ensures number { result ≡ read_number o.answer }
    ensures saved { words.new ≡ saved_by o.answer words.old o.after }
    ensures answer { answer.new ≡ laid_words answer.old (values_of o.answer) }
{
    match o.answer {
        Err(refusal) => {
            let number = refusal.number();
            let values: [u32; 20] = refused_values(number);
            lay(answer, &values);
            number
        }
        Ok(a) => {
            lay(answer, &report_values(a));
            pack(o.after, words);
            0
        }
    }
}

fn place_values(number: u32, next: Place) -> [u32; 5]
    requires { (next.offset < 2 ^ 32) × (next.left_over < 2 ^ 32) }
    ensures { result ≡ number ∷ next.offset ∷ next.left_over ∷ next.master.0 ∷ next.count.0 ∷ [] }
{
    [
        number,
        next.offset as u32,
        next.left_over as u32,
        u32::from(next.master.0),
        u32::from(next.count.0),
    ]
}

// Lays down what a writing gave.
#[tactic(auto, unfolding(writing::specs::Answers::values_of))]
pub fn answer_write(w: Written, answer: &mut [u32]) -> u32
    requires { (w.next.offset < 2 ^ 32) × (w.next.left_over < 2 ^ 32) }
    ensures number { result ≡ answer_number w.answer }
    ensures answer { answer.new ≡ laid_words answer.old (write_values w.answer w.next) }
{
    let number = w.answer.err().map_or(0, Refusal::number);
    lay(answer, &place_values(number, w.next));
    number
}
