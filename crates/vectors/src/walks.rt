// The walk, into an output that is painted before.
use crate::hex::Hex;
use printing::say;
use walk::{End, Ended, Tally};

// How many octets the output has, and what each of them is before a walk.
const OUTPUT: usize = 8192;

const BLANK: u8 = 0xEE;

// The octets that are filled, and the check of all, behind what the walk came to.
fn ended(rt: &impl Print, e: Ended, output: &[u8]) {
    let (end, number) = match e.end {
        End::Foreign => ("walk end=foreign number=", 0),
        End::Exact => ("walk end=exact number=", 0),
        End::Cut(k) => ("walk end=cut number=", k),
        End::Oversize(r) => ("walk end=oversize number=", r),
    };
    let Tally {
        delivered,
        idle,
        filled,
    } = e.tally;
    let octets = Hex(&output[..filled.min(output.len())]);
    let check = printing::Hex::<4>(u32::from(crc::syndrome(output)));
    say(
        rt,
        format_args!(
            "{end}{number} delivered={delivered} idle={idle} filled={filled} octets={octets} check={check}"
        ),
    );
}

pub fn walk(rt: &impl Print, from: usize, limit: usize, field: &[u8]) {
    if field.len() < from || limit < field.len() || OUTPUT < field.len() - from {
        return say(rt, "walk outside");
    }
    let mut output = [BLANK; OUTPUT];
    let e = walk::walk(field, from, limit, &mut output, Tally::default());
    ended(rt, e, &output);
}
