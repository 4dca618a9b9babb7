// What the first octets of a packet tell, chains, and gaps between counts.
use frame::ChannelCount;
use packet::{Header, Packet, Size};
use printing::say;

pub fn size(rt: &impl Print, seen: &[u8]) {
    let (tells, total) = match Packet::size(seen) {
        Size::Wait => ("size tells=wait total=", 0),
        Size::Foreign => ("size tells=foreign total=", 0),
        Size::Total(n) => ("size tells=total total=", n),
    };
    say(rt, format_args!("{tells}{total}"));
}

pub fn header(rt: &impl Print, seen: &[u8]) {
    if seen.len() < Packet::HEADER {
        return say(rt, "header outside");
    }
    let Header {
        version,
        type_bit,
        secondary,
        application,
        grouping,
        sequence,
        total,
    } = Header::of(seen);
    let secondary = u8::from(secondary);
    say(
        rt,
        format_args!(
            "header version={version} type={type_bit} secondary={secondary} application={application} \
             grouping={grouping} sequence={sequence} total={total}"
        ),
    );
}

pub fn chain(rt: &impl Print, run: &[u8]) {
    say(
        rt,
        format_args!("chain whole={}", u8::from(chain::is_chain(run))),
    );
}

pub fn distance(rt: &impl Print, offset: usize, run: &[u8]) {
    if offset <= run.len() && chain::is_chain(run) {
        say(
            rt,
            format_args!("distance octets={}", chain::distance(run, offset)),
        );
    } else {
        say(rt, "distance outside");
    }
}

fn count(n: usize) -> ChannelCount {
    ChannelCount((n % 256) as u8)
}

pub fn gap(rt: &impl Print, n: usize, last: usize) {
    say(
        rt,
        format_args!("gap missing={}", count(n).gap(count(last))),
    );
}
