// The timed runner: the untimed one, asked with the minutes struck out, and what the windows say of the minute.
ghost use Rattle.std.specs.Prelude.{◌≡◌, ◌≤◌, length, Ok};
ghost use Rattle.plan.specs.PlanFile.{most_bytes};
ghost use Rattle.plan.specs.Reading.{read_of};
ghost use Rattle.job.specs.Job.{most_windows};
ghost use Rattle.job.specs.Timed.{fresh_timed, start_timed_with};

use crate::{Answer, Job, MOST_WINDOWS, Refusal, Taken};
use plan::Layout;
use state::Entry;

// The fresh timed job of a plan file and a window file.
fn fresh_timed(s: &[u8], w: &[u8]) -> Job
    requires { (length s.now ≤ most_bytes) × (length w.now ≤ most_windows) }
    ensures { result ≡ fresh_timed s.now w.now }
{
    let mut windows = [0u8; MOST_WINDOWS];
    windows[..w.len()].copy_from_slice(w);
    Job {
        timed: true,
        windows,
        windows_len: w.len(),
        ..crate::fresh_job(s)
    }
}

// The job that a start makes from a plan file with this layout and a window file.
pub fn start_with(s: &[u8], w: &[u8], l: Layout) -> Taken
    requires { read_of s.now ≡ Ok l }
    ensures { result ≡ start_timed_with s.now w.now l }
{
    match hours::windows::check(w, l.types.len) {
        Ok(()) => Taken {
            answer: crate::start_with(s, l).answer,
            job: fresh_timed(s, w),
        },
        Err(f) => crate::no_job().refused(f.into()),
    }
}

impl Job {
    ghost use Rattle.job.specs.Timed.{struck_out, timed_tidy, take_timed_of};

    // The untimed job with the same plan and record.
    fn struck_out(&self) -> Job
        ensures { result ≡ struck_out self.now }
    {
        Job::untimed(self.file, self.file_len, self.entries, self.taken)
    }

    // Whether the job says that it is timed, its lengths are in range and the bytes past its plan file, its record and its window file are 0.
    fn is_tidy_timed(&self) -> bool
        ensures { result ≡ timed_tidy self.now }
    {
        self.timed
            && self.is_tidy()
            && self.windows_len <= MOST_WINDOWS
            && crate::zeros_from(&self.windows, self.windows_len)
    }

    // What is told of an entry with its minute, or why it is refused: what the untimed runner says comes first. An untimed job counts as false.
    pub(crate) fn answer_at(&self, e: Entry, minute: u32) -> Answer
        ensures { result ≡ (take_timed_of self.now e minute).answer }
    {
        if !self.is_tidy_timed() {
            return Err(Refusal::Entry);
        }
        let file = &self.file[..self.file_len];
        let windows = &self.windows[..self.windows_len];
        let Ok(layout) = plan::read(file) else {
            return Err(Refusal::Entry);
        };
        let actions = layout.types.len;
        let nodes = plan::part_of(file, layout.nodes);
        if !hours::entries::kept(
            windows,
            actions,
            nodes,
            &self.entries,
            self.taken,
            self.minute,
        ) {
            return Err(Refusal::Entry);
        }
        let told = self.struck_out().answer_to(e)?;
        hours::entries::check(windows, nodes, e.leaf, self.minute, minute)?;
        Ok(told)
    }
}
