// Octets at a place: one octet, a run copied, a part filled; with the definitions and laws of big-endian numbers and of layouts of bits.
// Each function says what it leaves as one equation of lists.
#![tactic(auto)]

ghost use Rattle.std.specs.Prelude.{◌≡◌, ◌++◌, ◌+◌, ◌≤◌, ◌<◌, min, length, get_or, replicate};
ghost use Rattle.octets.specs.Laid.{laid};

pub fn octet(s: &[u8], at: usize) -> usize
    requires { at < length s.now }
    ensures { (result ≡ get_or s.now at 0) × (result < 256) }
{
    usize::from(s[at])
}

// An octet of two runs that follow one another. A function of its own: a trait over one run and two would be longer than both.
pub fn octet_across(a: &[u8], b: &[u8], at: usize) -> usize
    requires { at < length a.now + length b.now }
    ensures { (result ≡ get_or (a.now ++ b.now) at 0) × (result < 256) }
{
    if at < a.len() {
        octet(a, at)
    } else {
        octet(b, at - a.len())
    }
}

// All of src into dst, from place at.
pub fn copy(dst: &mut [u8], at: usize, src: &[u8])
    requires { at + length src.now ≤ length dst.old }
    ensures { dst.new ≡ laid dst.old at src.now }
{
    // No `copy_from_slice`, which calls the C library's memmove: the archive asks a program that links it for memcpy and memset alone.
    for (i, octet) in src.iter().enumerate() {
        dst[at + i] = *octet;
    }
}

// `count` octets v into dst, from place at.
#[tactic(auto, unfolding(crate::specs::Laid::laid))]
pub fn fill(dst: &mut [u8], at: usize, count: usize, v: u8)
    requires { at + count ≤ length dst.old }
    ensures { dst.new ≡ laid dst.old at (replicate count v) }
{
    dst[at..at + count].fill(v);
}

// The lesser of two: a function of its own because OneAnswer has its field, and two edits turn it.
pub fn lesser(a: usize, b: usize) -> usize
    ensures { result ≡ min a b }
{
    a.min(b)
}
