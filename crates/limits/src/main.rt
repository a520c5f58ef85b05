// The limits of documents 01 and 02, tried on sheets, readers and records that are made here: lengths, depth, waiting errors, readers, stores, hostile records.
// Prints the counts of each group and of all.
#![tactic(auto)]

mod depth;
mod hostile;
mod jumps;
mod length;
mod made;
mod nested;
mod queue;
mod reader;
mod words;

use compared::trial::Trial;
use std::io;

// Words of the longest records: those of 200,000 signs and of a tree behind them.
const MEMORY: usize = 400006;

// All groups, one after the other.
fn groups<R: Print>(rt: &R) -> io::Result<()> {
    let mut trial = Trial::new(rt);
    let mut memory = [0; MEMORY];
    length::lengths(&mut trial, &mut memory)?;
    trial.end_group("limits, token length")?;
    depth::depths(&mut trial, &mut memory)?;
    trial.end_group("limits, depth")?;
    queue::queues(&mut trial, &mut memory)?;
    trial.end_group("limits, waiting errors")?;
    reader::readers(&mut trial)?;
    trial.end_group("limits, readers and stores")?;
    hostile::records(&mut trial, &mut memory)?;
    trial.end_group("limits, hostile records")?;
    trial.end()
}

fn main(rt: HostRuntime) -> io::Result<()> {
    groups(&rt)
}
