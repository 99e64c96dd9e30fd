// The job that an answer leaves.
ghost use Rattle.std.specs.Prelude.{◌≡◌};
ghost use Rattle.fields.specs.Jobs.{left_by};

use job::Job;
use state::Entry;

// The job that an answer with this number leaves: where the entry was taken and there is room for it, with that entry and this minute. It
// is written by itself, since it holds the runner against stored vectors.
#[tactic(auto, unfolding(crate::specs::Jobs::left_by))]
pub fn left_by(number: u8, mut job: Job, e: Entry, minute: u32) -> Job
    ensures { result ≡ left_by number job e minute }
{
    if number == 0 && job.taken < 63 {
        job.entries[2 * job.taken] = e.leaf;
        job.entries[2 * job.taken + 1] = e.outcome;
        job.taken += 1;
        job.minute = minute;
    }
    job
}
