// Records of a size that no input of this program has: a sum of 30,000 terms, 200,000 signs one in the other, 50,000 loops.
use crate::made::{Layers, SIGNS_TREE, both};
use crate::nested::nests;
use crate::words::Words;
use compared::checking::{FINE, Verdict};
use compared::trial::{Place, Trial};
use compared::writing::Writing;
use std::io;
use token::kind;
use tree::word;

// Words of the longest output.
const ROOM: usize = 120003;

// The number of `+`.
const ADD: u64 = 3;

// A number that is no operator's.
const NO_OPERATOR: u64 = 4;

// The records of a sum: one term and so many more.
const SUM_TREE: Layers = Layers {
    before: &[],
    middle: &[word::IDENTIFIER, 7],
    behind: &[word::IDENTIFIER, 7, word::BINARY_OP, ADD],
    end: &[word::EXPRESSION, 0],
};

// Its text.
const SUM_TEXT: Layers = Layers {
    before: &[],
    middle: &[kind::IDENTIFIER, 7],
    behind: &[kind::OP_ADD, 0, kind::IDENTIFIER, 7],
    end: &[kind::SEMICOLON, 0],
};

// A sum is one statement however long it is.
fn long_sum<R: Print>(
    trial: &mut Trial<R>,
    memory: &mut [u64],
    output: &mut [u64],
) -> io::Result<()> {
    let mut words = Words::new(memory);
    let (tree, text) = both(&mut words, SUM_TREE, SUM_TEXT, 29999)?;
    let place = Place::new("terms of a sum", 30000);
    trial.is_written(Writing::new(place, tree), output, text)?;
    trial.is_checked(place, tree, FINE)
}

// Damaged signs, by number: no clean reading gives them.
fn no_tree<R: Print>(
    trial: &mut Trial<R>,
    which: u64,
    records: &[u64],
    output: &mut [u64],
) -> io::Result<()> {
    let place = Place::new("damaged signs", which);
    // Stays 65, the paper's number, and 62 below: what tries a refusal or a stop takes none of the code's constants.
    trial.is_not_written(Writing::new(place, records), output, 65)?;
    trial.is_checked(place, records, Verdict::new(65, 0))
}

// Signs beyond the depth are too deep for the writer, and not for the check. Without their operand, or from the middle of a record on, they are no tree.
fn too_many<R: Print>(
    trial: &mut Trial<R>,
    tree: &[u64],
    output: &mut [u64],
    times: u64,
) -> io::Result<()> {
    let place = Place::new("signs", times);
    trial.is_not_written(Writing::new(place, tree), output, 62)?;
    trial.is_checked(place, tree, FINE)?;
    for (which, from) in [(1, 2), (2, 1)] {
        no_tree(trial, which, tree.get(from..).unwrap_or(tree), output)?;
    }
    Ok(())
}

// So many signs before a name, as they are and damaged: nor are they one with another tree behind them, or with a number, at the word in the middle, that is no
// operator's.
fn many_signs<R: Print>(
    trial: &mut Trial<R>,
    memory: &mut [u64],
    output: &mut [u64],
    times: u64,
    middle: usize,
) -> io::Result<()> {
    let mut tree = Words::new(memory);
    SIGNS_TREE.words(&mut tree, times as usize)?;
    let length = tree.all().len();
    too_many(trial, tree.all(), output, times)?;
    tree.put(&[word::IDENTIFIER, 7])?;
    no_tree(trial, 3, tree.all(), output)?;
    if let Some(number) = memory.get_mut(middle) {
        *number = NO_OPERATOR;
    }
    no_tree(trial, 4, memory.get(..length).unwrap_or(memory), output)
}

// The signs' records and a tree behind them take 400,006 words.
pub fn records<R: Print>(trial: &mut Trial<R>, memory: &mut [u64]) -> io::Result<()> {
    let mut output = [0; ROOM];
    long_sum(trial, memory, &mut output)?;
    for (times, middle) in [(37, 39), (200000, 200003)] {
        many_signs(trial, memory, &mut output, times, middle)?;
    }
    nests(trial, memory)
}
