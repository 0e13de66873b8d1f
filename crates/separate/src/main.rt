// The program `separate`: a record on standard input, the base flow of its days and the index on standard output.
// Input that cannot be read and output that cannot be written are told on standard error.
#![tactic(auto)]

ghost use Rattle.std.specs.Prelude.{◌≤◌, length, IfOk, OnOk};
ghost use Rattle.std.specs.Io.KnownBytes.{Appends};
ghost use Rattle.report.specs.Text.{separate_text};
ghost use Rattle.separate.specs.Private.{TakesAll};

use std::io;
use std::io::{Read, Write};

// Reads until the input ends or the buffer is full, and answers how many bytes it read.
fn read_input<R: Read>(from: &mut R, bytes: &mut [u8]) -> io::Result<usize>
    ensures fits { IfOk result (λ n. n ≤ length bytes.new) }
    ensures taken { IfOk result (TakesAll (R.remaining from.old) (R.remaining from.new) bytes.new) }
{
    // Kept: a loop over `read`, since `read_to_end` puts the bytes on the heap.
    let mut at = 0;
    while at < bytes.len() {
        let n = from.read(&mut bytes[at..])?;
        if n == 0 {
            break;
        }
        at += n;
    }
    Ok(at)
}

// Writes the text for a record's bytes; an error where not all of it went out.
fn write_report<W: Write>(to: &mut W, bytes: &[u8]) -> io::Result<()>
    ensures { OnOk result (Appends (W.contents to.old) (W.contents to.new) (separate_text bytes.now)) }
{
    // Kept: a buffer of fixed size and its length, as report::report has them: no heap.
    let mut text = [0u8; 65536];
    let size = report::report(bytes, &mut text);
    to.write_all(&text[..size])
}

fn main(rt: HostRuntime) {
    // one byte more than a record may have, so that a longer one is seen. Kept: fixed size, since the box has no heap.
    let mut bytes = [0u8; 32769];
    let Ok(n) = read_input(&mut rt.stdin(), &mut bytes) else {
        let _ = rt.eprintln("separate: standard input cannot be read");
        return;
    };
    if write_report(&mut rt.stdout(), &bytes[..n]).is_err() {
        let _ = rt.eprintln("separate: standard output cannot be written");
    }
}
