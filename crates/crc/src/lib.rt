// Error control: the 16-bit syndrome of a run of octets, an octet at a time through a table.
#![tactic(auto)]

mod table;

ghost use Rattle.std.specs.Prelude.{◌≡◌};
ghost use Rattle.crc.specs.Register.{syndrome_of};

const PRESET: u16 = 0xFFFF;

// The syndrome of a whole frame, and the error control field of what stands before it.
pub fn syndrome(bytes: &[u8]) -> u16
    ensures { result ≡ syndrome_of bytes.now }
{
    let table = table::entries();
    let mut r = PRESET;
    for octet in bytes {
        let top = (r >> 8) as u8;
        r = (r << 8) ^ table[usize::from(top ^ *octet)];
    }
    r
}
