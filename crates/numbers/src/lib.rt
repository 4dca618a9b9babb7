// Big-endian numbers of N octets, read and written at a place.
#![tactic(auto)]

ghost use Rattle.std.specs.Prelude.{◌≡◌, ◌+◌, ◌^◌, ◌≤◌, ◌<◌, length};
ghost use Rattle.octets.specs.Numbers.{number_at, octets_of};
ghost use Rattle.octets.specs.Laid.{laid};

// How many octets a usize has.
const WIDTH: usize = 8;

pub fn number<const N: usize>(s: &[u8], at: usize) -> usize
    requires width { N ≤ 8 }
    requires place { at + N ≤ length s.now }
    ensures { (result ≡ number_at s.now at N) × (result < 256 ^ N) }
{
    let mut all = [0; WIDTH];
    octets::copy(&mut all, WIDTH - N, &s[at..at + N]);
    usize::from_be_bytes(all)
}

pub fn put<const N: usize>(s: &mut [u8], at: usize, v: usize)
    requires width { N ≤ 8 }
    requires place { at + N ≤ length s.old }
    ensures { s.new ≡ laid s.old at (octets_of N v) }
{
    let all = v.to_be_bytes();
    octets::copy(s, at, &all[WIDTH - N..]);
}
