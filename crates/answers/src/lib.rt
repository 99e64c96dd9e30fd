// The lines of a runner's answer, as a text.
#![tactic(auto)]

ghost use Rattle.std.specs.Prelude.{◌≡◌};
ghost use Rattle.text.specs.Lines.{each};
ghost use Rattle.text.specs.Text.{appended, text_of};
ghost use Rattle.answers.specs.Lines.{comes_next, leaf_text, end_line, told_lines, answer_lines};

use job::{End, Status, Told};
use text::Text;

// Whether the leaf is among those that may come next, whose bits are set in `next`.
#[tactic(auto, using(crate::proofs::Texts::none_past))]
fn comes_next(next: u64, leaf: u64) -> bool
    ensures { result ≡ comes_next next leaf }
{
    leaf < 64 && (next >> leaf) % 2 == 1
}

// A blank and the leaf, where it may come.
#[tactic(auto, using(crate::proofs::Texts::leaf_comes, crate::proofs::Texts::leaf_stays))]
fn put_leaf(t: &mut Text, next: u64, leaf: u64)
    ensures { t.new ≡ appended t.old (leaf_text next leaf) }
{
    if comes_next(next, leaf) {
        t.push(b' ');
        t.put_decimal(leaf);
    }
}

#[tactic(auto, using(text::proofs::Ends::each_step, text::proofs::Ends::each_end))]
fn put_leaves(t: &mut Text, next: u64)
    ensures { t.new ≡ appended t.old (each (leaf_text next) 0 64) }
{
    for leaf in 0..64 {
        put_leaf(t, next, leaf);
    }
}

fn put_end(t: &mut Text, end: End)
    ensures { t.new ≡ appended t.old (end_line end) }
{
    match end {
        End::Open => t.put(b"open\n"),
        End::MayEnd(Status::Succeeded) => t.put(b"may end succeeded\n"),
        End::MayEnd(Status::Failed) => t.put(b"may end failed\n"),
    }
}

#[tactic(auto, using(crate::proofs::Texts::told_put))]
fn put_told(t: &mut Text, told: Told)
    ensures { t.new ≡ appended t.old (told_lines told) }
{
    t.put(b"next");
    put_leaves(t, told.next);
    t.push(b'\n');
    put_end(t, told.end);
}

// The lines of an answer that has the number in the place of a refusal: any number.
#[tactic(auto, using(text::proofs::Texts::appended_empty, text::proofs::Ends::numbered_short, crate::proofs::Texts::told_few))]
pub fn lines(a: Result<Told, u8>) -> Text
    ensures { result ≡ text_of (answer_lines a) }
{
    let mut t = Text::new();
    match a {
        Ok(told) => put_told(&mut t, told),
        Err(number) => t.put_numbered(b"refused", u64::from(number)),
    }
    t
}
