// Replays fixed sheets through the reader, and their trees and others through the writer and the check of labels, and compares each answer with the one in
// the input. Prints the counts of each group and of all.
#![tactic(auto)]

mod held;
mod input;
mod run;

use crate::input::Line;
use crate::run::Run;
use std::io;
use std::io::Read;

// One byte more of the input.
fn byte_read<R: Print>(rt: &R, run: &mut Run<R>, line: &mut Line, byte: u8) -> io::Result<()> {
    if byte != b'\n' {
        return line.byte_read(rt, byte);
    }
    run.line_read(line)?;
    line.next();
    Ok(())
}

// The whole input, byte by byte, so that no line is held whole.
// Stays a buffer of its own: `BufReader` has one on the heap, and `rt.reader()` also rests on what is assumed of `lseek`.
fn replay<R: Print, I: Read + Drop>(rt: &R, mut input: I) -> io::Result<()> {
    let mut run = Run::new(rt);
    let mut line = Line::start();
    let mut bytes = [0; 65536];
    // A proved loop has to end: this one has more turns than any input has bytes.
    for _ in 0..u64::MAX {
        let count = input.read(&mut bytes)?;
        if count == 0 {
            break;
        }
        for byte in &bytes[..count] {
            byte_read(rt, &mut run, &mut line, *byte)?;
        }
    }
    // The end of the input also ends a line that was begun.
    if line.first.is_some() {
        run.line_read(&mut line)?;
    }
    run.end()
}

fn main(rt: HostRuntime) -> io::Result<()> {
    replay(&rt, rt.stdin())
}
