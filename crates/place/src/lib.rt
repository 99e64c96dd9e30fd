// The place of a plan in the answer area of a class: 130 bytes, which the single verdict on it fills.
#![tactic(auto)]

ghost use Rattle.std.specs.Prelude.{◌≡◌, ◌≤◌, ◌<◌, length};
ghost use Rattle.judge.specs.Verdict.{work_size, record_size, verdict_of, set_given};
ghost use Rattle.place.specs.Place.{place_size, heading_of, PlaceAfter};
ghost use Rattle.place.specs.Work.{clears_work, work_left};

use judge::{Answer, Judgement};

// The bytes of a plan's place.
pub const PLACE: usize = 130;

// The first four bytes of a place.
fn heading(a: Answer, n: u8) -> [u8; 4]
    requires { set_given a < 65536 }
    ensures { result ≡ heading_of a n }
{
    match a {
        Ok(Judgement::Consistent) => [0, 0, 0, n],
        Ok(Judgement::Violated(set)) => [1, (set % 256) as u8, (set / 256) as u8, n],
        Err(refusal) => [2, refusal.number(), 0, n],
    }
}

// Fills the place that the part starts with, and answers whether the work area is cleared, which it is but for a refusal. The single verdict writes its record bytes, where
// they stay; a refusal leaves the zeros.
pub fn fill(file: &[u8], work: &mut [u8], part: &mut [u8]) -> bool
    requires work_size_in_bounds { work_size ≤ length work.old }
    requires place_size_in_bounds { place_size ≤ length part.old }
    ensures value { result ≡ clears_work (verdict_of file.now work_size record_size) }
    ensures work_after { work.new ≡ work_left result work.old }
    ensures place_after { PlaceAfter file.now part.old part.new }
{
    part[4..PLACE].fill(0);
    let a = judge::verdict(file, work, &mut part[4..]);
    let first = heading(a, judge::entry_count(&part[4..PLACE]) as u8);
    part[..4].copy_from_slice(&first);
    a.is_ok()
}
