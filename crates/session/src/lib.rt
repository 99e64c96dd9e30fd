// A session: a job, and the line that is coming in. Each byte of input is heard, and at the end of a line there is something to say.
#![tactic(auto)]

ghost use Rattle.std.specs.Prelude.{◌≡◌};

use job::{Job, Told};
use line::{Given, Line};
use text::Text;

pub mod line;

#[derive(Drop)]
pub struct Session {
    pub job: Job,
    pub line: Line,
}

// What is to be said. A runner's answer is said with the number in the place of a refusal.
#[derive(Drop)]
pub enum Say {
    Nothing,
    NotAnEntry,
    Answer(Result<Told, u8>),
}

impl Session {
    ghost use Rattle.session.specs.Session.{next_line, answered, heard_byte, heard_end};

    // The session at the start of a line.
    pub fn new(job: Job) -> Session
        ensures { result ≡ next_line job }
    {
        Session {
            job,
            line: Line::new(),
        }
    }

    // The line that has come is whole: an entry without a minute goes to an untimed job, and one with a minute to a timed one. The runner answers, and the
    // job that it hands back goes on.
    fn answer(&mut self) -> Say
        ensures { answered self.old ≡ record { say = result; session = self.new } }
    {
        let given = self.line.given();
        self.line = Line::new();
        let taken = match given {
            Some(Given::Entry(e)) if !self.job.timed => self.job.take(e),
            Some(Given::Timed { entry, minute }) if self.job.timed => {
                self.job.take_at(entry, minute)
            }
            _ => return Say::NotAnEntry,
        };
        self.job = taken.job;
        Say::Answer(job::numbered(taken.answer))
    }

    // One byte of input.
    pub fn hear(&mut self, b: u8) -> Say
        ensures { heard_byte self.old b ≡ record { say = result; session = self.new } }
    {
        if b == b'\n' {
            return self.answer();
        }
        self.line.push(b);
        Say::Nothing
    }

    // The end of the input: it ends a line of which a byte has come.
    pub fn hear_end(&mut self) -> Say
        ensures { heard_end self.old ≡ record { say = result; session = self.new } }
    {
        if self.line.has_begun() {
            self.answer()
        } else {
            Say::Nothing
        }
    }
}

impl Say {
    ghost use Rattle.text.specs.Text.{text_of};
    ghost use Rattle.session.specs.Session.{say_lines};

    // What is written, as a text.
    pub fn text(self) -> Text
        ensures { result ≡ text_of (say_lines self) }
    {
        match self {
            Say::Nothing => Text::new(),
            Say::NotAnEntry => {
                let mut t = Text::new();
                t.put(b"not an entry\n");
                t
            }
            Say::Answer(a) => answers::lines(a),
        }
    }
}
