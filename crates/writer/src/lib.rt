// The writer of canonical tokens: a statement's records in, its tokens' words out.
#![tactic(auto)]

ghost use Rattle.std.specs.Prelude.{length};
ghost use Rattle.grammar.specs.Contract.{Writes};
ghost use Rattle.output.specs.Text.{Held};
ghost use Rattle.writer.specs.Form.{place_number};
ghost use Rattle.writer.specs.Post.{WroteTree, RanOut};
ghost use Rattle.writer.specs.Stack.{Here};
ghost use Rattle.writer.specs.Verdict.{Whole, Legal};

mod children;
mod class;
mod demand;
mod edges;
mod form;
pub mod host;
mod kinds;
pub mod legal;
mod mode;
mod operators;
pub mod records;
mod sound;
mod standing;
mod target;
mod text;
mod tokens;

use crate::form::{Head, Place, base};
use crate::legal::legal;
use crate::mode::form_at;
use crate::operators::op_token;
use crate::records::shape;
use crate::text::put;
use grammar::{Written, limit};
use output::written;
use token::kind;
use tree::clear;
use tree::word::{BINARY_OP, CHILD};

const DEPTH: u64 = limit::DEPTH as u64;

// How many words of its own the decision has: so many that a call's stack stays below 64 KiB where it is refused with 65, and below 256 KiB where it
// writes (docs/DECISIONS.md).
const ROOM: usize = 6144;

// Where the writing stands: the records before this place are still to be written, and the text begins 2 before this one (below 2: no room).
#[derive(Clone, Copy)]
pub struct Step {
    pub records: usize,
    pub words: usize,
}

// A tree is deeper than it may be.
#[derive(Clone, Copy, Debug, PartialEq, Eq)]
pub struct TooDeep;

// The last tree of those that are still to be written, its words before the text. A chain of operators is a loop from its root: the right side, the operator, and on
// with the left side.
#[cycle(write_node_write_tree)]
fn write_tree(
    records: &[u64],
    output: &mut [u64],
    depth: u64,
    place: Place,
    from: Step,
) -> Result<Step, TooDeep>
    requires { Here records.now from.records × Held from.words output.old }
    ensures { WroteTree records.now depth (place_number place) from.records from.words output.old output.new result }
{
    // Stays `while`: the chain's records say how far it goes, and nothing is counted.
    let mut at = place;
    let mut step = from;
    while records[step.records - 2] == BINARY_OP {
        let number = records[step.records - 1];
        step.records -= 2;
        step = write_tree(records, output, depth, Place::Own, step)?;
        step.words = put(output, step.words, op_token(number), 0);
        at = Place::Own;
    }
    write_node(records, output, depth, at, step)
}

// The same, of a tree that is no operator with two sides: what stands behind the children, the children from the last to the first, each
// with the token behind it, and what stands before them.
#[cycle(write_node_write_tree)]
fn write_node(
    records: &[u64],
    output: &mut [u64],
    depth: u64,
    place: Place,
    from: Step,
) -> Result<Step, TooDeep>
    requires { Here records.now from.records × Held from.words output.old }
    ensures { WroteTree records.now depth (place_number place) from.records from.words output.old output.new result }
{
    let p = from.records;
    let word = records[p - 2];
    let kind = word % CHILD;
    if depth < base(kind) {
        return Err(TooDeep);
    }
    let head = Head {
        kind,
        value: records[p - 1],
        form: form_at(records, p, place),
    };
    let n = word / CHILD;
    let mut step = Step {
        records: p - 2,
        words: head.closing(output, from.words),
    };
    for j in (1..=n).rev() {
        step.words = put(output, step.words, head.after_token(n, j), 0);
        let below = depth - head.deeper(j);
        step = write_tree(records, output, below, head.place_of(j), step)?;
    }
    step.words = head.opening(output, step.words);
    Ok(step)
}

// The tree whose records these are and its semicolon, at the output's front, and zeros behind them.
fn run_out(records: &[u64], output: &mut [u64]) -> Written
    requires { Here records.now (length records.now) }
    ensures { RanOut records.now output.old output.new result }
{
    let end = Step {
        records: records.len(),
        words: put(output, output.len() + 2, Some(kind::SEMICOLON), 0),
    };
    match write_tree(records, output, DEPTH, Place::Own, end) {
        Ok(step) => written(output, step.words),
        Err(TooDeep) => {
            clear(output, 0);
            Written::Stopped(limit::TOO_DEEP)
        }
    }
}

// Whether the tree whose records these are is a statement that a clean reading can give, with the decision's own words.
fn decided_alone(records: &[u64]) -> bool
    requires { Whole records.now }
    ensures { Legal records.now result }
{
    // Stays an array: what C links has no heap.
    let mut kept = [0u64; ROOM];
    legal(records, &mut kept)
}

// The same. The output is lent where it has a word for each record, which is enough for any tree, or more words than there are otherwise.
fn decided(records: &[u64], output: &mut [u64]) -> bool
    requires { Whole records.now }
    ensures { Legal records.now result }
{
    if records.len() / 2 <= output.len() || ROOM < output.len() {
        legal(records, output)
    } else {
        decided_alone(records)
    }
}

// Writes the canonical tokens of the statement whose records these are, its semicolon included, and zeros behind them. `Writes` is the
// equation of answer and output with the definition `write_stmt`, for all inputs (grammar's specs/Contract.antt).
pub fn write_stmt(records: &[u64], output: &mut [u64]) -> Written
    ensures { Writes records.now output.old result output.new }
{
    if shape(records) && decided(records, output) {
        run_out(records, output)
    } else {
        clear(output, 0);
        Written::Refused(limit::NO_STATEMENT)
    }
}
