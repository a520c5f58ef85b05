// Readers made by hand: each way to be refused, stopped ones, ones in the middle of a sheet; and the order of the tests.
ghost use Rattle.std.specs.Prelude.{◌<◌};

use crate::made::{stopped_at, waiting_at};
use compared::answer::{Case, Want, fresh_at};
use compared::call::Call;
use compared::trial::{Place, Trial};
use grammar::Reader;
use std::io;
use token::kind;

// A reader that is refused, on a store of each of two lengths.
fn refused<R: Print>(trial: &mut Trial<R>, call: Call) -> io::Result<()> {
    // Stays 61, the paper's number, and the stops and errors below: what tries a refusal, a stop or an error takes none of the code's constants.
    let want = Want::answer(Case::Refused, 61, call.reader);
    trial.called(call, 80, want)?;
    trial.called(call, 0, want)
}

// A reader with a stop, whatever it is.
fn with_stop(reader: Reader, stopped: u64) -> Reader {
    Reader { stopped, ..reader }
}

// A reader with a number at a place of the queue.
fn with_error(mut reader: Reader, at: usize, error: u64) -> Reader
    requires { at < 96 }
{
    reader.errors[at] = error;
    reader
}

// Positions past the tokens, and too many waiting.
fn too_far() -> [(&'static str, u64, Reader); 4] {
    [
        ("position", 5, fresh_at(5)),
        ("position", u64::MAX, fresh_at(usize::MAX)),
        ("waiting", 97, waiting_at(0, 47, 97)),
        ("waiting", u64::MAX, waiting_at(0, 47, usize::MAX)),
    ]
}

// Numbers that are no error's, at the queue's front and at its back.
fn no_errors() -> [(&'static str, u64, Reader); 6] {
    let name = "waiting number";
    let back = waiting_at(4, 47, 96);
    [
        (name, 0, waiting_at(0, 0, 1)),
        (name, 3, waiting_at(0, 3, 96)),
        (name, 9, with_error(back, 95, 9)),
        (name, 53, with_error(back, 0, 53)),
        (name, 60, with_error(back, 48, 60)),
        (name, 62, waiting_at(0, 62, 2)),
    ]
}

// Stops that are none.
fn no_stops() -> [(&'static str, u64, Reader); 6] {
    let name = "stop";
    [
        (name, 1, stopped_at(0, 1)),
        (name, 59, stopped_at(4, 59)),
        (name, 61, stopped_at(0, 61)),
        (name, 63, stopped_at(0, 63)),
        (name, 65, stopped_at(0, 65)),
        (name, 47, with_stop(waiting_at(0, 47, 1), 47)),
    ]
}

// Unused places of the queue that are not zero.
fn not_zero() -> [(&'static str, u64, Reader); 5] {
    let name = "unused place";
    [
        (name, 0, with_error(fresh_at(0), 0, 47)),
        (name, 95, with_error(fresh_at(0), 95, 1)),
        (name, 3, with_error(waiting_at(0, 47, 2), 3, 47)),
        (name, 95, with_error(waiting_at(4, 47, 95), 95, 47)),
        (name, 50, with_error(stopped_at(0, 62), 50, 47)),
    ]
}

// Each of these readers is refused.
fn each_refused<R: Print>(
    trial: &mut Trial<R>,
    readers: &[(&'static str, u64, Reader)],
    tokens: &[u64],
) -> io::Result<()> {
    for (name, at, reader) in readers {
        let call = Call::new(Place::new(name, *at), *reader, tokens);
        refused(trial, call)?;
    }
    Ok(())
}

// A stopped reader answers its number again, also before an error that waits and before the store's test.
fn stopped<R: Print>(trial: &mut Trial<R>, stop: u64, tokens: &[u64]) -> io::Result<()> {
    let place = Place::new("stopped", stop);
    let reader = stopped_at(2, stop);
    let want = Want::answer(Case::Stopped, stop, reader);
    let call = Call::new(place, reader, tokens);
    trial.called_full(call, want)?;
    trial.called(call, 0, want)?;
    let reader = with_stop(waiting_at(4, 47, 96), stop);
    trial.called(Call { reader, ..call }, 0, Want { reader, ..want })
}

// A waiting error is answered before the store's test, in its kind.
fn answered<R: Print>(trial: &mut Trial<R>, error: u64, tokens: &[u64]) -> io::Result<()> {
    let call = Call::new(
        Place::new("waiting", error),
        waiting_at(1, error, 2),
        tokens,
    );
    let want = Want::answer(Case::Error, error, waiting_at(1, error, 1));
    trial.called_full(call, want)?;
    trial.called(call, 0, want)
}

// The statement `b` of the sheet `a ; b EOF`, by a reader in its middle, at the semicolon and behind it.
fn middle<R: Print>(trial: &mut Trial<R>, position: usize, tokens: &[u64]) -> io::Result<()> {
    let call = Call::new(
        Place::new("reader in the middle, position", position as u64),
        fresh_at(position),
        tokens,
    );
    let want = Want::tree(&[31, 8, 258, 0], fresh_at(3));
    trial.called_short(call)?;
    trial.called_full(call, want)?;
    trial.called(call, 80, want)
}

// The end, from `EOF` on and behind it.
fn at_end<R: Print>(trial: &mut Trial<R>, position: usize, tokens: &[u64]) -> io::Result<()> {
    let reader = fresh_at(position);
    let call = Call::new(Place::new("end, position", position as u64), reader, tokens);
    let want = Want::answer(Case::End, 0, reader);
    trial.called_short(call)?;
    trial.called_full(call, want)
}

// Readers that are refused.
fn not_readers<R: Print>(trial: &mut Trial<R>, tokens: &[u64]) -> io::Result<()> {
    each_refused(trial, &too_far(), tokens)?;
    each_refused(trial, &no_errors(), tokens)?;
    each_refused(trial, &no_stops(), tokens)?;
    each_refused(trial, &not_zero(), tokens)
}

// Readers that have stopped, and readers with errors waiting. The numbers 24, 28 and 32, which no reading gives, are errors' numbers: where a host
// hands in a reader in which they wait, they are answered.
fn not_reading<R: Print>(trial: &mut Trial<R>, tokens: &[u64]) -> io::Result<()> {
    for stop in [60, 62, 64] {
        stopped(trial, stop, tokens)?;
    }
    for error in [1, 2, 52, 24, 28, 32] {
        answered(trial, error, tokens)?;
    }
    Ok(())
}

pub fn readers<R: Print>(trial: &mut Trial<R>) -> io::Result<()> {
    let tokens = [
        kind::IDENTIFIER,
        7,
        kind::SEMICOLON,
        0,
        kind::IDENTIFIER,
        8,
        kind::EOF,
        0,
    ];
    trial.begin_sheet();
    not_readers(trial, &tokens)?;
    not_reading(trial, &tokens)?;
    middle(trial, 1, &tokens)?;
    middle(trial, 2, &tokens)?;
    at_end(trial, 3, &tokens)?;
    at_end(trial, 4, &tokens)
}
