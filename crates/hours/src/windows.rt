// The window file: five bytes for each window.
ghost use Rattle.std.specs.Prelude.{◌≡◌, ◌<◌};
ghost use Rattle.hours.specs.Windows.{window_count, window_at, alone_ok, window_ok, windows_ok, windows_checked};

use crate::{Fault, Window};

// How many minutes a week has.
pub const WEEK: usize = 10080;

// When window i is open.
pub(crate) fn window_at(w: &[u8], i: usize) -> Window
    requires { i < window_count w.now }
    ensures { (result ≡ window_at w.now i) × (result.opens < 65536) }
{
    Window {
        opens: blocks::number_at(w, 5 * i + 1),
        closes: blocks::number_at(w, 5 * i + 3),
    }
}

// Whether no other window names the action of window i.
fn alone_ok(w: &[u8], i: usize) -> bool
    requires { i < window_count w.now }
    ensures { result ≡ alone_ok w.now i }
{
    (0..w.len() / 5).all(|j| i == j || w[5 * i] != w[5 * j])
}

fn window_ok(w: &[u8], actions: usize, i: usize) -> bool
    requires { i < window_count w.now }
    ensures { result ≡ window_ok actions w.now i }
{
    let x = window_at(w, i);
    usize::from(w[5 * i]) < actions && x.opens < x.closes && x.closes <= WEEK && alone_ok(w, i)
}

fn windows_ok(w: &[u8], actions: usize) -> bool
    ensures { result ≡ windows_ok actions w.now }
{
    w.len() % 5 == 0 && (0..w.len() / 5).all(|i| window_ok(w, actions, i))
}

// Whether the bytes are a window file for a plan of so many actions.
pub fn check(w: &[u8], actions: usize) -> Result<(), Fault>
    ensures { result ≡ windows_checked actions w.now }
{
    if windows_ok(w, actions) {
        Ok(())
    } else {
        Err(Fault::Windows)
    }
}
