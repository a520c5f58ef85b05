// The errors that wait, the oldest first.
ghost use Rattle.std.specs.Prelude.{◌≡◌, ◌≤◌, ◌<◌, ◌&&◌, ◌++◌, ◌∷◌, [], eqb, length, take, drop};
ghost use Rattle.std.specs.List.{list_all};
ghost use Rattle.grammar.specs.Reading.Limit.{queue_limit};
ghost use Rattle.grammar.specs.Reading.Stmt.{control_last as control_last_def, synchronized as synchronized_def};
ghost use Rattle.grammar.specs.Reading.Next.{is_error as is_error_def, is_stop as is_stop_def, queue_fits as queue_fits_def, pad};
ghost use Rattle.scan.specs.Post.{Pushes, Queues, Resumes};
ghost use Rattle.scan.specs.Parts.{until};

use crate::tokens::{look, not_last};
use crate::{Failure, Halt, Until, number};
use grammar::{Queue, limit};
use std::marker::Model;
use token::kind;

// A contract sees the errors that wait as a list. They stand in the first places of an array, as in the reader that C keeps.
// Stays an array with its count: the reader's array is taken and given back whole, with 0 behind the errors, which an `ArrayVec` has no method for.
#[derive(Drop)]
pub struct Waiting {
    errors: Queue,
    count: usize,
}

impl Model for Waiting {
    ghost use Rattle.std.specs.Prelude.{List, ℕ, ◌≤◌, take};
    ghost use Rattle.grammar.specs.Reading.Limit.{queue_limit};

    ghost Value = { List ℕ };

    ghost view = { λ w. take w.count w.errors };

    ghost invariant = { λ w. w.count ≤ queue_limit };
}

impl Waiting {
    // None waits.
    pub fn new() -> Waiting
        ensures { result ≡ [] }
    {
        Waiting {
            errors: [0; limit::QUEUE],
            count: 0,
        }
    }

    // The first places of a queue wait.
    pub fn of(errors: Queue, count: usize) -> Waiting
        requires { count ≤ queue_limit }
        ensures { result ≡ take count errors }
    {
        Waiting { errors, count }
    }

    // How many wait: no more than there is room for.
    pub fn len(&self) -> usize
        ensures few { result ≤ queue_limit }
        ensures count { result ≡ length self.now }
    {
        self.count
    }

    // An error joins the back, where there is a place.
    pub fn push(&mut self, error: u64)
        requires { length self.old < queue_limit }
        ensures { self.new ≡ self.old ++ error ∷ [] }
    {
        self.errors[self.count] = error;
        self.count += 1;
    }

    // An error joins the back. Where the queue is full it stays, and the reading stops.
    pub fn try_push(&mut self, error: u64) -> Result<(), Halt>
        ensures { Pushes error self.old self.new result }
    {
        if self.count == limit::QUEUE {
            return Err(Halt::Stop(limit::QUEUE_FULL));
        }
        self.push(error);
        Ok(())
    }

    // The front; the others move up.
    pub fn pop(&mut self) -> u64
        requires { 1 ≤ length self.old }
        ensures { self.old ≡ result ∷ self.new }
    {
        let front = self.errors[0];
        let count = self.count;
        self.errors.copy_within(1..count, 0);
        self.count = count - 1;
        front
    }

    // The queue with 0 behind the errors that wait.
    pub fn padded(self) -> Queue
        ensures { result ≡ pad self }
    {
        let Waiting { mut errors, count } = self;
        errors[count..].fill(0);
        errors
    }
}

// Behind a control of the token kind k: a token that does not end the list is taken, and an error waits. Answers past which word the reading stands.
pub fn control_last(
    tokens: &[u64],
    queue: &mut Waiting,
    end: Until,
    k: u64,
    pos: usize,
) -> Result<usize, Halt>
    requires { pos ≤ length tokens.now }
    ensures { Queues (control_last_def (until end) k queue.old (drop pos tokens.now)) tokens.now pos queue.old queue.new result }
{
    let token = look(tokens, pos)?;
    if end.ends(token.kind) {
        return Ok(pos);
    }
    queue.try_push(not_last(k))?;
    Ok(pos + 2)
}

// After a resynchronization in a list: `EOF`, no token or a lexer error fails the list with the queue's front.
pub fn synchronized(tokens: &[u64], queue: &mut Waiting, pos: usize) -> Result<(), Halt>
    requires { (pos ≤ length tokens.now) × (1 ≤ length queue.old) }
    ensures { Resumes (synchronized_def queue.old (drop pos tokens.now)) tokens.now pos queue.old queue.new result }
{
    match look(tokens, pos) {
        Ok(token) => {
            if token.kind == kind::EOF {
                let error = queue.pop();
                return Err(Halt::Fail(Failure { error, pos }));
            }
            Ok(())
        }
        Err(Halt::Fail(failure)) => {
            let error = queue.pop();
            Err(Halt::Fail(Failure { error, ..failure }))
        }
        Err(Halt::Stop(n)) => Err(Halt::Stop(n)),
    }
}

// The numbers of errors.
fn is_error(e: u64) -> bool
    ensures { result ≡ is_error_def e }
{
    match e {
        number::LEXER_ERROR | number::END_OF_TOKENS => true,
        _ => number::CONTINUE_NOT_ALLOWED <= e && e <= number::CLASS_DEFINITION,
    }
}

// The numbers of stops, and 0 for none.
pub fn is_stop(n: u64) -> bool
    ensures { result ≡ is_stop_def n }
{
    matches!(
        n,
        0 | limit::MALFORMED | limit::TOO_DEEP | limit::QUEUE_FULL
    )
}

fn all_errors(numbers: &[u64]) -> bool
    ensures { result ≡ list_all is_error_def numbers.now }
{
    numbers.iter().all(|e| is_error(*e))
}

fn all_zeros(numbers: &[u64]) -> bool
    ensures { result ≡ list_all (λ e. eqb e 0) numbers.now }
{
    numbers.iter().all(|e| *e == 0)
}

// The first places hold errors, the others 0.
pub fn queue_fits(queue: Queue, waiting: usize) -> bool
    requires { waiting ≤ queue_limit }
    ensures { result ≡ queue_fits_def waiting queue }
{
    all_errors(&queue[..waiting]) && all_zeros(&queue[waiting..])
}
