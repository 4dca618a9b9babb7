// The loop over the frames of a recording.
ghost use Rattle.std.specs.Prelude.{◌≡◌};
ghost use Rattle.keeping.specs.Keeping.{Keeps};

use channel::{Output, Store};
use desk::{Desk, Saved};
use files::save;
use frame::SetUp;
use input::read_full;
use keeping::{Work, step};
use lines::{accepted, blame, complain, refused};
use reading::Report;
use std::fs::File;
use std::io::Read;

// What a run over a recording keeps from frame to frame, besides store and output: these are large, and lent by themselves, so that they are
// made once. Arrays: the program never stops for lack of memory.
#[derive(Drop)]
pub struct Run {
    set: SetUp,
    pub work: Work,
    pub files: [File; 8],
}

impl Run {
    pub fn new(set: SetUp, files: [File; 8]) -> Run {
        Run {
            set,
            work: Work {
                desk: Desk::fresh(),
                saved: [Saved::default(); 8],
                complete: true,
            },
            files,
        }
    }

    // An accepted frame, with its packets: they are written before its line, so that no line tells of packets that are not in the file.
    fn accept(&mut self, rt: &HostRuntime, r: Report, packets: &[u8])
        ensures desk { self.new.work.desk ≡ self.old.work.desk }
        ensures set { self.new.set ≡ self.old.set }
    {
        let v = r.header.channel % 8;
        let before = self.work.saved[v];
        self.work.saved[v] = save(&rt.stderr(), &mut self.files[v], v, before, packets);
        accepted(rt, self.work.desk.totals.frames, r);
    }

    // One frame: what the desk answers is said, and the packets are saved.
    fn one(
        &mut self,
        rt: &HostRuntime,
        frame: &[u8],
        store: &mut [u8; Store::LEN],
        output: &mut [u8; Output::MIN],
    )
        ensures kept { Keeps self.old.set self.old.work.desk store.old output.old frame.now self.new.work.desk store.new }
        ensures set { self.new.set ≡ self.old.set }
    {
        let stepped = step(self.work, self.set, frame, store, output);
        self.work = stepped.work;
        match stepped.answer {
            Err(refusal) => refused(rt, self.work.desk.totals.frames, frame.len(), refusal),
            Ok(r) => self.accept(rt, r, &output[..stepped.octets]),
        }
    }

    // All frames of the recording; the last may be short, and is refused then. A proved loop has to end, so the turns are counted,
    // up to a number that no recording reaches.
    fn frames(&mut self, rt: &HostRuntime, file: &mut File) {
        let mut store = [0u8; Store::LEN];
        let mut output = [0u8; Output::MIN];
        let mut room = [0u8; SetUp::MAX];
        // The length, which is at most MAX in a set-up that fits.
        let n = self.set.length.min(SetUp::MAX);
        for _ in 0..u64::MAX {
            let got = read_full(file, &mut room[..n]);
            if got == 0 {
                return;
            }
            self.one(rt, &room[..got], &mut store, &mut output);
            if got < n {
                return;
            }
        }
    }

    pub fn read_all(&mut self, rt: &HostRuntime, file: &mut File, path: &[u8]) {
        self.frames(rt, file);
        self.work.complete = ended(rt, file, path);
    }
}

// Whether the recording ended where the frames did; if not, why is said.
fn ended(rt: &HostRuntime, file: &mut File, path: &[u8]) -> bool {
    let mut more = [0u8; 1];
    match file.read(&mut more) {
        Ok(0) => return true,
        Ok(_) => complain(
            &rt.stderr(),
            "reading stopped: the recording is still growing",
        ),
        Err(why) => blame(&rt.stderr(), "reading stopped: ", path, why),
    }
    false
}
