// The token length: 65,536 tokens are read, 65,537 and an odd length are not. A store for the whole of such a sheet would be 8 MiB,
// so a reader near the sheet's end reads it; of a reader at its start a store that is too short shows that the length was passed.
use crate::made::{stopped_at, waiting_at};
use crate::words::Words;
use compared::answer::{Case, Want, fresh_at};
use compared::call::Call;
use compared::trial::{Place, Trial};
use std::io;
use token::kind;

// Tokens of the longest sheet.
const MOST: usize = 65536;

// A sheet of semicolons, from its start: a short store is refused.
fn from_start<R: Print>(trial: &mut Trial<R>, tokens: &[u64]) -> io::Result<()> {
    let reader = fresh_at(0);
    let call = Call::new(
        Place::new("from the start, words", tokens.len() as u64),
        reader,
        tokens,
    );
    // Stays 63, the paper's number, and 60 and 62 below: what tries a refusal or a stop takes none of the code's constants.
    let want = Want::answer(Case::Refused, 63, reader);
    trial.called(call, 4000, want)
}

// The same sheet from its last tokens on: the semicolons are passed, and the end stands at the sheet's end.
fn from_near_end<R: Print>(trial: &mut Trial<R>, left: usize, tokens: &[u64]) -> io::Result<()> {
    let call = Call::new(
        Place::new("tokens left", left as u64),
        fresh_at(MOST.saturating_sub(left)),
        tokens,
    );
    let want = Want::answer(Case::End, 0, fresh_at(MOST));
    trial.called_full(call, want)
}

// A sheet of a length that can't be read: it stops, at the reader's old position and with an empty queue, whatever the reader is.
fn not_read<R: Print>(trial: &mut Trial<R>, position: usize, tokens: &[u64]) -> io::Result<()> {
    let place = Place::new("not read, words", tokens.len() as u64);
    let want = Want::answer(Case::Stopped, 60, stopped_at(position, 60));
    let full = waiting_at(position, 47, 96);
    let over = waiting_at(position, 3, 97);
    for reader in [fresh_at(position), full, over] {
        trial.called(Call::new(place, reader, tokens), 4000, want)?;
    }
    let reader = stopped_at(position, 62);
    trial.called(Call::new(place, reader, tokens), 0, want)
}

// A sheet of 65,536 semicolons.
fn longest<R: Print>(trial: &mut Trial<R>, whole: &[u64]) -> io::Result<()> {
    trial.begin_sheet();
    from_start(trial, whole)?;
    for left in [0, 1, 500] {
        from_near_end(trial, left, whole)?;
    }
    Ok(())
}

// Sheets that are a token too long, and of odd lengths.
fn too_long<R: Print>(trial: &mut Trial<R>, sheet: &[u64]) -> io::Result<()> {
    trial.begin_sheet();
    not_read(trial, 0, sheet)?;
    not_read(trial, 65530, sheet)?;
    for (position, words) in [(0, 1), (0, 131071), (65536, 131073)] {
        trial.begin_sheet();
        not_read(trial, position, sheet.get(..words).unwrap_or(sheet))?;
    }
    Ok(())
}

pub fn lengths<R: Print>(trial: &mut Trial<R>, memory: &mut [u64]) -> io::Result<()> {
    let mut words = Words::new(memory);
    let semicolon = [kind::SEMICOLON, 0];
    words.lay(&semicolon, 65536)?;
    longest(trial, words.all())?;
    words.put(&semicolon)?;
    too_long(trial, words.all())
}
