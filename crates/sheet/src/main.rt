// Prints the sheet of the question file on standard input, or `refused` and the number. All that matters is in the crate paper. What could not be read
// or written is named on standard error; the status is always 0, since what the program found is in what it prints.
#![tactic(auto)]

use std::env::{Env, FillError};
use std::io;
use std::io::Read;

// One byte more than a question file may have: a longer input is seen to be too long, and is not cut to one that is not.
const ROOM: u64 = 65537;

// The bytes of the sheet's buffer (document 01: "Its output buffer is 32,768 bytes"), of which the library says how many it filled.
const SHEET: usize = 32768;

// The program mark has the same three functions. In a crate for both they would be public calls, of which no contract could say the outcome: what
// reaches standard error is nothing that a clause speaks of.

fn has_argument(rt: &impl Env, argument: usize) -> bool {
    !matches!(rt.arg(argument, &mut []), Err(FillError::NotPresent))
}

// The system's words for an error, without the number that std writes behind them.
fn words(text: &str) -> &str {
    text.split(" (os error ").next().unwrap_or(text)
}

// Says on standard error what could not be read or written, and why; with the number, if there is no memory to cut it off.
fn fail(rt: &(impl Eprint + Alloc), what: &str, why: io::Error) -> io::Result<()> {
    let Ok(text) = format!(in rt.alloc(); "{why}") else {
        return eprintln!(rt; "{what}: {why}");
    };
    let why = words(text.as_str());
    eprintln!(rt; "{what}: {why}")
}

fn put_sheet(rt: &(impl Input + Print + Eprint + Alloc)) -> io::Result<()> {
    let mut question = Vec::new(rt.alloc());
    if let Err(why) = rt.reader().take(ROOM).read_to_end(&mut question) {
        return fail(rt, "standard input", why);
    }
    let mut out = [0u8; SHEET];
    let len = paper::sheet::print_sheet(&question, &mut out);
    if let Err(why) = rt.write_all(&out[..len]) {
        return fail(rt, "standard output", why);
    }
    Ok(())
}

fn main(rt: HostRuntime) {
    // An error is left only where standard error itself could not be written, and then nobody can be told.
    let _ = if has_argument(&rt, 1) {
        eprintln!(rt; "usage: sheet < QUESTION")
    } else {
        put_sheet(&rt)
    };
}
