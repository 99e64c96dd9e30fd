// An entry's minute: the window of its leaf's action, and whether the minute is in order and inside it; and the minutes of a whole record.
ghost use Rattle.std.specs.Prelude.{◌≡◌, ◌≤◌, ◌<◌};
ghost use Rattle.hours.specs.Hours.{whole_week, window_of, leaf_window, inside, entry_checked, earliest};
ghost use Rattle.hours.specs.Kept.{soonest, came_by, kept};

use crate::windows::{WEEK, window_at};
use crate::{Fault, Window};

// What may come at any minute has the whole week.
fn whole_week() -> Window
    ensures { result ≡ whole_week }
{
    Window {
        opens: 0,
        closes: WEEK,
    }
}

// The window of an action.
fn window_of(w: &[u8], action: usize) -> Window
    ensures { (result ≡ window_of w.now action) × (result.opens < 65536) }
{
    match (0..w.len() / 5).find(|&i| usize::from(w[5 * i]) == action) {
        Some(i) => window_at(w, i),
        None => whole_week(),
    }
}

// The window of the action of a leaf.
#[tactic(auto, unfolding(crate::specs::Hours::leaf_window))]
fn leaf_window(w: &[u8], nodes: &[u8], leaf: u8) -> Window
    ensures { (result ≡ leaf_window w.now nodes.now leaf) × (result.opens < 65536) }
{
    let n = usize::from(leaf);
    if n >= nodes.len() / 3 {
        return whole_week();
    }
    let x = nodes::node_at(nodes, n);
    if x.form == 0 {
        window_of(w, x.left)
    } else {
        whole_week()
    }
}

// Whether the minute lies in the window.
fn is_inside(x: Window, minute: usize) -> bool
    ensures { result ≡ inside x minute }
{
    (x.opens..x.closes).contains(&(minute % WEEK))
}

// Whether an entry of the leaf may come at this minute, after an entry at the minute `last`.
pub fn check(w: &[u8], nodes: &[u8], leaf: u8, last: u32, minute: u32) -> Result<(), Fault>
    ensures { result ≡ entry_checked w.now nodes.now leaf last minute }
{
    if minute < last {
        return Err(Fault::Early);
    }
    if !is_inside(leaf_window(w, nodes, leaf), minute as usize) {
        return Err(Fault::Outside);
    }
    Ok(())
}

// The least minute from `t` on that lies in the window.
fn earliest(x: Window, t: usize) -> usize
    requires { (x.opens < 65536) × (t ≤ 10000000) }
    ensures { result ≡ earliest x t }
{
    let m = t % WEEK;
    if m < x.opens {
        return t - m + x.opens;
    }
    if m < x.closes {
        return t;
    }
    t - m + WEEK + x.opens
}

// The earliest minute at which the first `k` entries of a record can have come.
#[tactic(auto, using(crate::proofs::Earliest::earliest_most), unfolding(crate::specs::Kept::soonest))]
fn soonest(w: &[u8], nodes: &[u8], entries: &[u8; 126], k: usize) -> usize
    requires { k ≤ 63 }
    ensures { result ≡ soonest w.now nodes.now entries.now k }
{
    let mut t = 0;
    for i in 0..k {
        t = earliest(leaf_window(w, nodes, entries[2 * i]), t);
    }
    t
}

// Whether the last of `taken` entries of a record can have come at this minute; without an entry it is 0.
fn came_by(w: &[u8], nodes: &[u8], entries: &[u8; 126], taken: usize, minute: usize) -> bool
    requires { taken ≤ 63 }
    ensures { result ≡ came_by w.now nodes.now entries.now taken minute }
{
    if taken == 0 {
        return minute == 0;
    }
    let last = taken - 1;
    soonest(w, nodes, entries, last) <= minute
        && is_inside(leaf_window(w, nodes, entries[2 * last]), minute)
}

// Whether the bytes are a window file for a plan of so many actions with these nodes, and the last of `taken` entries can have come at this minute.
pub fn kept(
    w: &[u8],
    actions: usize,
    nodes: &[u8],
    entries: &[u8; 126],
    taken: usize,
    minute: u32,
) -> bool
    requires { taken ≤ 63 }
    ensures { result ≡ kept actions w.now nodes.now entries.now taken minute }
{
    crate::windows::check(w, actions).is_ok() && came_by(w, nodes, entries, taken, minute as usize)
}
