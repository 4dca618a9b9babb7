// What is said at the end: a line a channel, its file read back, and the last line.
use crate::recording::Run;
use files::{Out, finished};
use frame::Header;
use lines::channel;
use printing::say;

pub fn summary(rt: &HostRuntime, run: &Run, out: &Out) {
    let work = run.work;
    let totals = work.desk.totals;
    let mut complete = work.complete;
    // By number: a channel's is in its line and in its file's name too.
    for v in 0..Header::CHANNELS {
        channel(rt, v, totals.channels[v]);
        let saved = finished(
            rt,
            &rt.stderr(),
            &run.files[v],
            out.name(v).as_slice(),
            work.saved[v],
        );
        let word = if saved { " saved=yes" } else { " saved=no" };
        say(rt, format_args!("{word}\n"));
        complete &= saved;
    }
    let rec = work.desk.rec;
    say(
        rt,
        format_args!(
            "end frames={} refused={} busy_mask={} busy_channels={} lowest_busy={}{}\n",
            totals.frames,
            totals.refused,
            rec.busy(),
            rec.busy_count(),
            rec.lowest_busy(),
            if complete {
                " result=complete"
            } else {
                " result=incomplete"
            }
        ),
    );
}
