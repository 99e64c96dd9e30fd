// Reading from a reader or a file into a lent buffer, where a read that fails is told from the end of the input.
//
// No contract can say what a call of the system did, so those below say only how count and buffer go together. That `read_some`, `fill` and
// `fill_from` hand on what the reader and the opening answered is to be read here: docs/TRUST.md names it.
#![tactic(auto)]

ghost use Rattle.std.specs.Prelude.{◌≡◌, ◌-◌, ◌≤◌, length, take};
ghost use Rattle.io.specs.Counts.{IsPrefixLen};
ghost use Rattle.input.specs.Answer.{answer_of, count_of, OneRead, Fills};

use std::env::{Env, FillError};
use std::fs::{File, Files};
use std::io;
use std::io::{ErrorKind, Read};

// Reading has failed: how many bytes stand at the start of the buffer, which came before that, and why.
#[derive(Drop)]
pub struct Unread {
    pub count: usize,
    pub why: io::Error,
}

// It failed before any came.
impl From<io::Error> for Unread {
    ghost from_gives = { λ why r. r ≡ record { count = 0; why = why } };

    fn from(why: io::Error) -> Unread {
        Unread { count: 0, why }
    }
}

// What the answer of one read says of `room` bytes: no more of them than there is room for, and none where it failed.
fn answered(got: io::Result<usize>, room: usize) -> Result<usize, Unread>
    ensures { result ≡ answer_of got room }
{
    Ok(got?.min(room))
}

// One read: it gives what has come, as soon as anything has, and nothing where the input has ended.
pub fn read_some<R: Read>(from: &mut R, buf: &mut [u8]) -> Result<usize, Unread>
    ensures one_read { OneRead (length buf.old) result }
    ensures prefix_len { IsPrefixLen (count_of result) buf.new }
{
    answered(from.read(buf), buf.len())
}

// One read into the bytes from `done` on. Those before it stay.
fn read_after<R: Read>(from: &mut R, buf: &mut [u8], done: usize) -> Result<usize, Unread>
    requires { done ≤ length buf.old }
    ensures one_read { OneRead (length buf.old - done) result }
    ensures buf_unchanged { take done buf.new ≡ take done buf.old }
{
    read_some(from, &mut buf[done..])
}

// Reads until the buffer is full, the input ends or a read fails.
pub fn fill<R: Read>(from: &mut R, buf: &mut [u8]) -> Result<usize, Unread>
    ensures { Fills buf.new result }
{
    let mut done = 0;
    // No index counts here: how far a read goes is the input's to say.
    while done < buf.len() {
        match read_after(from, buf, done) {
            Ok(0) => break,
            Ok(n) => done += n,
            Err(e) => {
                return Err(Unread {
                    count: done,
                    why: e.why,
                });
            }
        }
    }
    Ok(done)
}

// Reads the file of this name, until the buffer is full, the file ends or something fails. A name is text in UTF-8, and no file has another.
pub fn fill_from<F: Files>(files: &F, path: &[u8], buf: &mut [u8]) -> Result<usize, Unread>
    ensures { IsPrefixLen (count_of result) buf.new }
{
    let Ok(name) = str::from_utf8(path) else {
        return Err(Unread::from(io::Error::from(ErrorKind::InvalidInput)));
    };
    let mut file = File::open(files, name)?;
    fill(&mut file, buf)
}

// The number that the system has for a name that is too long.
const NAME_TOO_LONG: i32 = 36;

// How many arguments there are, the name of the program among them.
pub fn arg_count<R: Env>(rt: &R) -> usize {
    (0..usize::MAX)
        .find(|&i| matches!(rt.arg(i, &mut []), Err(FillError::NotPresent)))
        .unwrap_or(usize::MAX)
}

// The i-th argument, put into the buffer: nothing where there is none, and a failure where it has no room.
pub fn arg_at<R: Env>(rt: &R, i: usize, buf: &mut [u8]) -> Result<usize, Unread>
    ensures { IsPrefixLen (count_of result) buf.new }
{
    match rt.arg(i, buf) {
        Ok(n) => Ok(n),
        Err(FillError::NotPresent) => Ok(0),
        Err(FillError::TooLong) => Err(Unread::from(io::Error::from_raw_os_error(NAME_TOO_LONG))),
    }
}
