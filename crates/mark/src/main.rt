// Marks a paper: prints how many of the answers are right and how many count, or `refused` and the number. Its arguments name the question file and the
// file of answers, one byte an event. What could not be read or written is named on standard error; the status is always 0, since what the program found
// is in what it prints.
#![tactic(auto)]

use limits::refusal::Refusal;
use paper::types::Score;
use std::env::{Env, FillError};
use std::fs::{File, Files};
use std::io;
use std::io::Read;

// One byte more than a question file may have, and one answer more than a file has events: what is longer is refused, and not cut.
const QUESTION: u64 = 65537;

const ANSWERS: u64 = 1001;

// The most bytes of an argument. (It is read into a buffer, and not by `env::args`, which fails as a whole and not by name: one that is too long, or no
// UTF-8, is said to be so.)
const PATH: usize = 4096;

// Prints the marks, or the refusal. (The program examples prints the same behind a word. A `Display` for both would be one of a struct around this Result,
// with its own match.)
fn put_marks(rt: &impl Print, marks: Result<Score, Refusal>) -> io::Result<()> {
    match marks {
        Ok(score) => println!(rt; "{score}"),
        Err(why) => println!(rt; "{why}"),
    }
}

// The program sheet has the same three functions. In a crate for both they would be public calls, of which no contract could say the outcome: what
// reaches standard error is nothing that a clause speaks of.

fn has_argument(rt: &impl Env, argument: usize) -> bool {
    !matches!(rt.arg(argument, &mut []), Err(FillError::NotPresent))
}

// The system's words for an error, without the number that std writes behind them.
fn words(text: &str) -> &str {
    text.split(" (os error ").next().unwrap_or(text)
}

// Says on standard error what could not be read or written, and why; with the number, if there is no memory to cut it off.
fn fail(rt: &(impl Eprint + Alloc), what: &str, why: io::Error) -> io::Result<()> {
    let Ok(text) = format!(in rt.alloc(); "{why}") else {
        return eprintln!(rt; "{what}: {why}");
    };
    let why = words(text.as_str());
    eprintln!(rt; "{what}: {why}")
}

// Opens the file that an argument names. Where there is none, says so and answers none.
fn open<R: Env + Files + Eprint + Alloc>(rt: &R, argument: usize) -> io::Result<Option<R::File>> {
    let mut path = [0u8; PATH];
    let Ok(n) = rt.arg(argument, &mut path) else {
        eprintln!(rt; "name of a file: File name too long")?;
        return Ok(None);
    };
    let Ok(name) = str::from_utf8(&path[..n]) else {
        eprintln!(rt; "name of a file: not UTF-8")?;
        return Ok(None);
    };
    match File::open(rt, name) {
        Ok(file) => Ok(Some(file)),
        Err(why) => {
            fail(rt, name, why)?;
            Ok(None)
        }
    }
}

fn mark_files<F: Read + Drop, R: Print + Eprint + Alloc>(
    rt: &R,
    question_file: F,
    answers_file: F,
) -> io::Result<()> {
    let mut question = Vec::new(rt.alloc());
    if let Err(why) = question_file.take(QUESTION).read_to_end(&mut question) {
        return fail(rt, "question file", why);
    }
    let mut answers = Vec::new(rt.alloc());
    if let Err(why) = answers_file.take(ANSWERS).read_to_end(&mut answers) {
        return fail(rt, "answers", why);
    }
    if let Err(why) = put_marks(rt, paper::mark::mark(&question, &answers)) {
        return fail(rt, "standard output", why);
    }
    Ok(())
}

fn mark<R: Env + Files + Print + Eprint + Alloc>(rt: &R) -> io::Result<()> {
    let Some(question) = open(rt, 1)? else {
        return Ok(());
    };
    let Some(answers) = open(rt, 2)? else {
        return Ok(());
    };
    mark_files(rt, question, answers)
}

fn main(rt: HostRuntime) {
    // An error is left only where standard error itself could not be written, and then nobody can be told.
    let _ = if has_argument(&rt, 2) && !has_argument(&rt, 3) {
        mark(&rt)
    } else {
        eprintln!(rt; "usage: mark QUESTION ANSWERS")
    };
}
