// Reads the lines of a sheet of tokens from standard input, and lists the statement reader's answers up to an end or a stop.
// The exit status is 0 in each case, so the output tells: a listing is whole exactly if its last line is
// `answer=end` or `answer=stopped number=N`, line end included. Where a read fails nothing is listed, and the only line is
// `input cannot be read`. Where a write fails no more is written. Standard error says why.
#![tactic(auto)]

mod input;
mod line;
mod lines;
mod listing;

ghost use Rattle.std.specs.Prelude.{◌≡◌, ◌*◌, ◌≤◌, length};
ghost use Rattle.grammar.specs.Reading.Kept.{goes_on as goes_on_def};
ghost use Rattle.treelist.specs.Input.{ASheet};
ghost use Rattle.treelist.specs.Printing.{Holds};

use crate::input::read_sheet;
use crate::lines::Tokens;
use crate::listing::{AnswerLine, NodeLine};
use grammar::limit::{MALFORMED, QUEUE};
use grammar::{Answer, Reader};
use parser::next_stmt;
use std::io;

// Prints the lines of a tree's nodes.
fn print_nodes(rt: &impl Print, store: &[u64], nodes: usize) -> io::Result<()>
    requires { 2 * nodes ≤ length store.now }
{
    let (records, _) = store[..2 * nodes].as_chunks::<2>();
    for [first, value] in records {
        rt.print(NodeLine {
            first: *first,
            value: *value,
        })?;
    }
    Ok(())
}

// Prints an answer.
fn print(rt: &impl Print, answer: Answer, store: &[u64]) -> io::Result<()>
    requires { Holds answer store.now }
{
    rt.print(AnswerLine(answer))?;
    match answer {
        Answer::Tree(nodes) => print_nodes(rt, store, nodes),
        _ => Ok(()),
    }
}

// Whether another answer may follow.
fn goes_on(answer: Answer) -> bool
    ensures { result ≡ goes_on_def answer }
{
    matches!(answer, Answer::Tree(_) | Answer::Error(_))
}

// Prints every answer, up to an end or a stop.
// Stays `loop`: the answers say when it ends.
fn print_answers(rt: &impl Print, tokens: &[u64], store: &mut [u64]) -> io::Result<()> {
    let mut reader = Reader {
        position: 0,
        waiting: 0,
        errors: [0u64; QUEUE],
        stopped: 0,
    };
    loop {
        let step = next_stmt(reader, tokens, store);
        print(rt, step.answer, store)?;
        if !goes_on(step.answer) {
            return Ok(());
        }
        reader = step.reader;
    }
}

// Lists a sheet that was read to its end, or that a line of it is malformed.
fn list(rt: &impl Print, sheet: Option<Tokens>) -> io::Result<()>
    requires { ASheet sheet }
{
    match sheet {
        Some(tokens) => {
            // Stays an array: on the heap the program would rest on three assumptions more about C's functions.
            let mut store = [0u64; 8000];
            print_answers(rt, tokens.as_slice().as_flattened(), &mut store)
        }
        None => rt.print(AnswerLine(Answer::Stopped(MALFORMED))),
    }
}

// Says on standard error what failed, and why.
fn fail(rt: &impl Eprint, what: &str, why: io::Error) {
    let _ = eprintln!(rt; "treelist: {what}: {why}");
}

// Stays without a result: an `Err` would end with the exit status 1.
fn main(rt: HostRuntime) {
    let listed = match read_sheet(&mut rt.stdin()) {
        Ok(sheet) => list(&rt, sheet),
        Err(why) => {
            // The reason first: a write that fails has one of its own.
            fail(&rt, "standard input", why);
            println!(rt; "input cannot be read")
        }
    };
    if let Err(why) = listed {
        fail(&rt, "standard output", why);
    }
}
