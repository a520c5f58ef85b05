// The depth: 37 begun and unfinished are read and written, a 38th stops reader and writer, by operands, by right sides and by statement
// lists. The numbers are document 02's, and not made of the limit in the code.
use crate::made::{Layers, SIGNS_TREE, both, stops};
use crate::words::Words;
use compared::trial::{Place, Trial};
use compared::writing::Writing;
use std::io;
use token::kind;
use tree::word;

// Words of the longest output.
const ROOM: usize = 228;

// What is begun one in the other: its tokens, and its records.
#[derive(Clone, Copy)]
struct Nest {
    name: &'static str,
    sheet: Layers,
    tree: Layers,
}

// An operand is begun at each sign and at the name.
const OPERANDS: Nest = Nest {
    name: "depth by operands",
    sheet: Layers {
        before: &[kind::OP_SUB, 0],
        middle: &[kind::IDENTIFIER, 7],
        behind: &[],
        end: &[kind::SEMICOLON, 0],
    },
    tree: SIGNS_TREE,
};

// A right side is begun at each `=`, and an operand at the last name.
const RIGHT_SIDES: Nest = Nest {
    name: "depth by right sides",
    sheet: Layers {
        before: &[kind::IDENTIFIER, 7, kind::OP_ASSIGN, 0],
        middle: &[kind::IDENTIFIER, 7],
        behind: &[],
        end: &[kind::SEMICOLON, 0],
    },
    tree: Layers {
        before: &[word::IDENTIFIER_PATTERN, 7],
        middle: &[word::IDENTIFIER, 7],
        behind: &[word::ASSIGNMENT, 0],
        end: &[word::EXPRESSION, 0],
    },
};

// A statement list is begun in each loop. The loop in the middle is empty.
const LISTS: Nest = Nest {
    name: "depth by statement lists",
    sheet: Layers {
        before: &[kind::LOOP, 0],
        middle: &[kind::LOOP, 0, kind::END, 0, kind::SEMICOLON, 0],
        behind: &[kind::END, 0, kind::SEMICOLON, 0],
        end: &[],
    },
    tree: Layers {
        before: &[],
        middle: &[
            word::LIST,
            0,
            word::ABSENT,
            0,
            word::STMT_LIST,
            0,
            word::LOOP,
            0,
        ],
        behind: &[
            word::LIST + word::CHILD,
            0,
            word::ABSENT,
            0,
            word::STMT_LIST,
            0,
            word::LOOP,
            0,
        ],
        end: &[],
    },
};

// A tree that is as deep as may be: its tokens are read to it, and it is written as them.
fn both_ways<R: Print>(
    trial: &mut Trial<R>,
    place: Place,
    tokens: &[u64],
    tree: &[u64],
) -> io::Result<()> {
    trial.begin_sheet();
    trial.read_whole(place, tokens, tree)?;
    trial.is_written(Writing::new(place, tree), &mut [0; ROOM], tokens)
}

// One deeper: neither read nor written.
fn neither_way<R: Print>(
    trial: &mut Trial<R>,
    place: Place,
    tokens: &[u64],
    tree: &[u64],
) -> io::Result<()> {
    stops(trial, place, tokens, 62)?;
    trial.is_not_written(Writing::new(place, tree), &mut [0; ROOM], 62)
}

// What is begun 37 times, and 38 times: one of them in the middle.
fn tried<R: Print>(trial: &mut Trial<R>, words: &mut Words, nest: Nest) -> io::Result<()> {
    let (sheet, tree) = both(words, nest.sheet, nest.tree, 36)?;
    both_ways(trial, Place::new(nest.name, 37), sheet, tree)?;
    let (sheet, tree) = both(words, nest.sheet, nest.tree, 37)?;
    neither_way(trial, Place::new(nest.name, 38), sheet, tree)
}

pub fn depths<R: Print>(trial: &mut Trial<R>, memory: &mut [u64]) -> io::Result<()> {
    let mut words = Words::new(memory);
    for nest in [OPERANDS, RIGHT_SIDES, LISTS] {
        tried(trial, &mut words, nest)?;
    }
    Ok(())
}
