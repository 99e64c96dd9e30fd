// What is said to a rule as people type it: a line with its bytes in postfix order, or `refused` and document 02's number for why.
#![tactic(auto)]

ghost use Rattle.std.specs.Prelude.{◌≡◌, ◌+◌, ◌<◌, min, length, replicate};
ghost use Rattle.text.specs.Lines.{each};
ghost use Rattle.text.specs.Text.{appended, text_of};
ghost use Rattle.reply.specs.Line.{hex, hex_digit, item, item_at, line_for};
ghost use Rattle.reply.specs.Reply.{longest, typed_in, reply_to};

use formula::Turned;
use text::Text;

// The longest text that is read.
const LONGEST: usize = 65536;

// Room for the longest text, a newline after it, and a byte more, all 0: so an input that is cut there is too long.
pub fn room() -> [u8; 65538]
    ensures longest_value { longest + 2 ≡ length result }
    ensures value { result ≡ replicate (longest + 2) 0 }
{
    [0; LONGEST + 2]
}

// A hexadecimal digit, lower case.
fn digit(d: u8) -> u8
    requires { d < 16 }
    ensures { result ≡ hex_digit d }
{
    if d < 10 { b'0' + d } else { b'a' - 10 + d }
}

#[tactic(auto, unfolding(text::specs::Text::appended))]
fn put_hex(t: &mut Text, b: u8)
    ensures { t.new ≡ appended t.old (hex b) }
{
    t.push(digit(b / 16));
    t.push(digit(b % 16));
}

// A byte, with a blank before it where it is not the first.
#[tactic(auto, using(text::proofs::Ends::appended_first))]
fn put_item(t: &mut Text, i: usize, b: u8)
    ensures { t.new ≡ appended t.old (item i b) }
{
    if i > 0 {
        t.push(b' ');
    }
    put_hex(t, b);
}

// The first n of the bytes.
fn put_items(t: &mut Text, bytes: &[u8; 127], n: usize)
    ensures { t.new ≡ appended t.old (each (item_at bytes.now) 0 (min n 127)) }
{
    for i in 0..n.min(bytes.len()) {
        put_item(t, i, bytes[i]);
    }
}

// The line that tells what a text becomes.
fn line_of(turned: Turned) -> Text
    ensures { result ≡ text_of (line_for turned) }
{
    let Turned { answer, bytes } = turned;
    let mut line = Text::new();
    match answer {
        Ok(n) => {
            put_items(&mut line, &bytes, n);
            line.push(b'\n');
        }
        Err(why) => line.put_numbered(b"refused", u64::from(why.number())),
    }
    line
}

// The text that was typed: a newline at the very end is no part of it.
fn typed_in(input: &[u8]) -> &[u8]
    ensures { result.now ≡ typed_in input.now }
{
    match input {
        [text @ .., b'\n'] => text,
        _ => input,
    }
}

// What is said to an input: the line of what its text becomes, or that it is too long.
pub fn reply_to(input: &[u8]) -> Result<Text, Text>
    ensures { result ≡ reply_to input.now }
{
    let text = typed_in(input);
    if text.len() > LONGEST {
        let mut line = Text::new();
        line.put(b"postfix: the text is too long: 65,536 bytes at most\n");
        return Err(line);
    }
    Ok(line_of(formula::rule_of(text)))
}
