// Replays recorded calls of the numbers. Each line of standard input is a call: one letter (h half, e exp, d decode_probability) and three arguments
// by their bit patterns, 16 hexadecimal digits each, parted by a space. For each the answer's pattern is written, behind the letter, or `r` and the
// number of the refusal. What the Rust reading of document 01 answered is in the file stdout, which the gate holds this program to.
#![tactic(auto)]

ghost use Rattle.std.specs.Prelude.{◌<◌};

use float::bits::{bits_of, float_of};
use half::logistic::{decode_probability, exp};
use half::power::half;
use std::io;
use std::io::Read;

// A call's bytes, with its LF.
const LINE: usize = 53;

// The most bytes of an input that are read.
const ROOM: u64 = 65536;

// The value of a hexadecimal digit; 0 for any other byte. (`to_digit` takes capitals too, which are other bytes here.)
fn digit(b: u8) -> u64
    ensures { result < 16 }
{
    match b {
        b'0'..=b'9' => u64::from(b - b'0'),
        b'a'..=b'f' => u64::from(b - b'a') + 10,
        _ => 0,
    }
}

// The f64 of a pattern's digits.
fn float(digits: &[u8]) -> f64 {
    float_of(digits.iter().fold(0, |bits, &b| bits << 4 | digit(b)))
}

// Writes an answer's line. (Its kind is written as the byte that was read: `{}` would write a u8's number, and of a char over 127 two bytes.)
fn put(rt: &impl Print, kind: u8, bits: u64) -> io::Result<()> {
    rt.write_all(&[kind, b' '])?;
    println!(rt; "{bits:016x}")
}

// Answers a call. (Its letter is matched here alone: an enum of the letters would be made to be taken apart at once. The arms take one or three arguments,
// and only the last can be refused: closures for them, chosen by letter, would need this match too.)
fn answer(rt: &impl Print, line: &[u8; LINE]) -> io::Result<()> {
    let kind = line[0];
    let x = float(&line[2..18]);
    match kind {
        b'h' => put(rt, kind, bits_of(half(x))),
        b'e' => put(rt, kind, bits_of(exp(x))),
        _ => match decode_probability(x, float(&line[19..35]), float(&line[36..52])) {
            Ok(p) => put(rt, kind, bits_of(p)),
            Err(why) => put(rt, b'r', u64::from(why.number())),
        },
    }
}

// Answers each whole line.
fn replay(rt: &impl Print, text: &[u8]) -> io::Result<()> {
    let (lines, _) = text.as_chunks::<LINE>();
    for line in lines {
        answer(rt, line)?;
    }
    Ok(())
}

fn main(rt: HostRuntime) -> io::Result<()> {
    let mut text = Vec::new(rt.alloc());
    rt.reader().take(ROOM).read_to_end(&mut text)?;
    replay(&rt, &text)
}
