// The entries of the statement reader: the next answer, with the reader by value.
#![tactic(auto)]

ghost use Rattle.std.specs.Prelude.{◌≡◌, not, ◌&&◌, ◌||◌, [], ◌+◌, ◌*◌, ◌/◌, ◌%◌, ◌≤◌, eqb, ltb, length, drop};
ghost use Rattle.tree.specs.Tree.{records};
ghost use Rattle.grammar.specs.Reading.Limit.{depth_limit, length_limit, queue_limit};
ghost use Rattle.grammar.specs.Reading.Next.{is_stop as is_stop_def, queue_fits as queue_fits_def, reader_at, halted, error_answer as error_answer_def, called, failed as failed_def, next};
ghost use Rattle.grammar.specs.Contract.{Returns};
ghost use Rattle.std.specs.Result.{IsErrAnd};
ghost use Rattle.scan.specs.Post.{Ready, Failed, Agrees};

pub mod host;
pub mod kept;

use cycle::{stmt, sync};
use grammar::{Answer, ErrorKind, Reader, Stepped, limit};
use scan::queue::{Waiting, is_stop, queue_fits};
use scan::tokens::start;
use scan::{Cursor, Failure, Halt, number};
use tree::clear;

// A statement failed: its error joins the queue's back, the front is the answer, and then comes the resynchronization. There is no tree.
fn failed(
    tokens: &[u64],
    store: &mut [u64],
    queue: &mut Waiting,
    f: Failure,
) -> Result<Cursor, Halt>
    requires { Ready (length tokens.now) (length store.old) f.pos 0 }
    ensures { IsErrAnd result (λ h. Failed (failed_def depth_limit f.error queue.old (drop f.pos tokens.now)) tokens.now f.pos f.pos 0 store.old queue.old store.new queue.new h) }
{
    queue.try_push(f.error)?;
    let error = queue.pop();
    let place = Cursor { pos: f.pos, at: 0 };
    let pos = sync(tokens, store, queue, limit::DEPTH, false, place)?;
    Err(Halt::Fail(Failure { error, pos }))
}

// One statement. Error `END` is the end.
fn statement(tokens: &[u64], store: &mut [u64], queue: &mut Waiting) -> Result<Cursor, Halt>
    requires { Ready (length tokens.now) (length store.old) 0 0 }
    ensures { Agrees records (next depth_limit queue.old tokens.now) tokens.now 0 0 8 0 store.old queue.old store.new queue.new result }
{
    let pos = start(tokens, 0)?;
    match stmt(tokens, store, queue, limit::DEPTH, Cursor { pos, at: 0 }) {
        Ok(end) => Ok(end),
        Err(Halt::Fail(f)) => failed(tokens, store, queue, f),
        Err(Halt::Stop(n)) => Err(Halt::Stop(n)),
    }
}

// The answer of an error.
fn error_answer(e: u64) -> Answer
    ensures { result ≡ error_answer_def e }
{
    if e == number::END {
        return Answer::End;
    }
    Answer::Error(ErrorKind::from(e))
}

// A stop: the old position, an empty queue.
fn stop_at(position: usize, n: u64) -> Stepped
    ensures { result ≡ (halted 0 position n).step }
{
    Stepped {
        answer: Answer::Stopped(n),
        reader: Reader {
            position,
            waiting: 0,
            errors: [0u64; limit::QUEUE],
            stopped: n,
        },
    }
}

// An answer, and a reader that goes on.
fn go_on(answer: Answer, position: usize, queue: Waiting) -> Stepped
    ensures { result ≡ record { answer = answer; reader = reader_at position queue } }
{
    let waiting = queue.len();
    Stepped {
        answer,
        reader: Reader {
            position,
            waiting,
            errors: queue.padded(),
            stopped: 0,
        },
    }
}

// Whether a sheet of this many words can be read at all.
fn is_sheet(words: usize) -> bool
    ensures { result ≡ not (eqb (words % 2) 1 || ltb (2 * length_limit) words) }
{
    words % 2 == 0 && words <= limit::LENGTH
}

// Whether a reader can be one, over a sheet of this many tokens.
fn is_reader(reader: &Reader, count: usize) -> bool
    ensures { result ≡ (not (ltb count reader.now.position || ltb queue_limit reader.now.waiting) && (is_stop_def reader.now.stopped && queue_fits_def reader.now.waiting reader.now.errors)) }
{
    reader.position <= count
        && reader.waiting <= limit::QUEUE
        && is_stop(reader.stopped)
        && queue_fits(reader.errors, reader.waiting)
}

// The unread tokens, from a position on, are read for a statement.
fn read_on(position: usize, unread: &[u64], store: &mut [u64]) -> Stepped
    requires { (length unread.now % 2 ≡ 0) × (length unread.now ≤ 131072) × (8 * length unread.now ≤ length store.old) × (position ≤ 65536) }
    ensures { record { step = result; store = store.new } ≡ called (position + length unread.now / 2) (length store.old) position (next depth_limit [] unread.now) }
{
    let mut queue = Waiting::new();
    match statement(unread, store, &mut queue) {
        Ok(end) => {
            clear(store, end.at);
            go_on(Answer::Tree(end.at / 2), position + end.pos / 2, queue)
        }
        Err(Halt::Fail(f)) => {
            clear(store, 0);
            go_on(error_answer(f.error), position + f.pos / 2, queue)
        }
        Err(Halt::Stop(n)) => {
            clear(store, 0);
            stop_at(position, n)
        }
    }
}

// The next answer: the tests in their order, the token length, the reader, a stop, a waiting error, the store; then the statement.
// `Returns` is the equation of answer, reader and store with the definition `next_stmt`, for all inputs (grammar's specs/Contract.antt).
pub fn next_stmt(reader: Reader, tokens: &[u64], store: &mut [u64]) -> Stepped
    ensures { Returns reader tokens.now store.old result store.new }
{
    let position = reader.position;
    let count = tokens.len() / 2;
    if !is_sheet(tokens.len()) {
        clear(store, 0);
        return stop_at(position, limit::MALFORMED);
    }
    if !is_reader(&reader, count) {
        clear(store, 0);
        return Stepped {
            answer: Answer::Refused(limit::BAD_READER),
            reader,
        };
    }
    if 0 < reader.stopped {
        clear(store, 0);
        return Stepped {
            answer: Answer::Stopped(reader.stopped),
            reader,
        };
    }
    if 0 < reader.waiting {
        clear(store, 0);
        let mut queue = Waiting::of(reader.errors, reader.waiting);
        let error = ErrorKind::from(queue.pop());
        return go_on(Answer::Error(error), position, queue);
    }
    if store.len() < limit::STORE_SHARE * (count - position) {
        clear(store, 0);
        return Stepped {
            answer: Answer::Refused(limit::SHORT_STORE),
            reader,
        };
    }
    let from = 2 * position;
    read_on(position, &tokens[from..], store)
}
