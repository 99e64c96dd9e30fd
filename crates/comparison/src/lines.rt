// The lines that tell of a data file's vectors, as a text.
ghost use Rattle.std.specs.Prelude.{◌≡◌};
ghost use Rattle.text.specs.Text.{appended, text_of};
ghost use Rattle.comparison.specs.Data.{name_at};
ghost use Rattle.comparison.specs.Lines.{title_of, difference_line, difference_lines, counts_line, damage_line, comparison_lines};

use crate::{Comparison, Difference};
use text::Text;
use vectors::Group;

fn put_title(t: &mut Text, group: Group)
    ensures { t.new ≡ appended t.old (title_of group) }
{
    match group {
        Group::Files => t.put(b"files"),
        Group::Runs => t.put(b"runs"),
        Group::Hours => t.put(b"hours"),
        Group::Verdicts => t.put(b"verdicts"),
        Group::Formulas => t.put(b"formulas"),
        Group::Classes => t.put(b"classes"),
    }
}

// The name of the vector at `at`.
fn put_name(t: &mut Text, s: &[u8], at: usize)
    ensures { t.new ≡ appended t.old (name_at s.now at) }
{
    if let Some(start) = crate::body_start(s, at) {
        t.put(&s[at + 8..start]);
    }
}

fn put_difference(t: &mut Text, group: Group, s: &[u8], d: Difference)
    ensures { t.new ≡ appended t.old (difference_line group (name_at s.now d.at) d) }
{
    put_title(t, group);
    t.put(b": vector ");
    t.put_decimal(d.number);
    t.put(b" (");
    put_name(t, s, d.at);
    t.put(b"): expected ");
    t.put_decimal(d.expected);
    t.put(b", found ");
    t.put_decimal(d.found);
    t.push(b'\n');
}

#[tactic(auto, unfolding(text::specs::Text::appended))]
fn put_first(t: &mut Text, group: Group, s: &[u8], first: Option<Difference>)
    ensures { t.new ≡ appended t.old (difference_lines group s.now first) }
{
    if let Some(d) = first {
        put_difference(t, group, s, d);
    }
}

#[tactic(auto, using(crate::proofs::Texts::counts_put))]
fn put_counts(t: &mut Text, group: Group, c: Comparison)
    ensures { t.new ≡ appended t.old (counts_line group c) }
{
    put_title(t, group);
    t.put(b": ");
    t.put_decimal(c.vectors);
    t.put(b" vectors, ");
    t.put_decimal(c.agree);
    t.put(b" agree\n");
}

fn put_damage(t: &mut Text, group: Group)
    ensures { t.new ≡ appended t.old (damage_line group) }
{
    put_title(t, group);
    t.put(b": the data file is damaged after these\n");
}

// The lines of a data file of the group.
pub fn lines(group: Group, s: &[u8]) -> Text
    ensures { result ≡ text_of (comparison_lines group s.now) }
{
    let c = crate::compared(group, s);
    let mut t = Text::new();
    put_first(&mut t, group, s, c.first);
    put_counts(&mut t, group, c);
    if !c.whole {
        put_damage(&mut t, group);
    }
    t
}
