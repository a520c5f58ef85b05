// The second step: the records of an expression that can be a pattern become the pattern's. No function here has a failing answer: what a record becomes is
// told by the record itself and by the first word of its child or last item; whether it may stand there was decided before.
ghost use Rattle.std.specs.Prelude.{List, ℕ, ◌+◌, ◌-◌, ◌≤◌, length};
ghost use Rattle.tree.specs.Store.{Copied};
ghost use Rattle.tree.specs.Tree.{Tree};
ghost use Rattle.pattern.specs.Contract.{Access, AnAccess, Moved, Over, over_words, Fit, AFit, Stands};

use tree::{emit, skip, word};

// Moves the words from `from` to `to` to `dest`, where they may stand already. It is a function of its own since the loops of `copy_within`,
// written in place at each call, make a pattern with an index take a third more instructions.
#[inline(never)]
fn move_words(store: &mut [u64], from: usize, to: usize, dest: usize)
    requires { (from ≤ to) × (to ≤ length store.old) × (dest + (to - from) ≤ length store.old) }
    ensures { Copied from to dest store.old store.new }
{
    if dest != from {
        store.copy_within(from..to, dest);
    }
}

// Turns the access that ends at `i` into its pattern, which ends at `w`, and says where the access started.
// The records are written from the right, so that none is overwritten before it is read.
fn move_access(store: &mut [u64], i: usize, w: usize) -> usize
    requires { AnAccess store.old i w }
    ensures { (B : List ℕ) (p : Tree) → Access B p store.old i w → Moved B p store.old i w result store.new }
{
    prove!(8 <= i);
    let by = w - i;
    let primary = store[i - 1];
    let list = store[i - 4];
    let path = store[i - 3];
    prove!(word::CHILD <= list);
    let n = list / word::CHILD;
    if store[i - 6] == word::ATTRIBUTE {
        let name = store[i - 5];
        let start = skip(store, i - 6, n);
        prove!(start <= i - 8);
        emit(store, w - 2, word::ATTRIBUTE_PATTERN, name);
        emit(store, w - 4, word::PRIMARY, primary);
        emit(store, w - 6, list - word::CHILD, path);
        move_words(store, start, i - 6, start + by);
        start
    } else {
        let middle = skip(store, i - 6, 1);
        prove!(middle <= i - 8);
        let start = skip(store, middle, n);
        prove!(start <= middle);
        emit(store, w - 2, word::INDEX_PATTERN, 0);
        move_words(store, middle, i - 6, middle + by + 4);
        emit(store, middle + by + 2, word::PRIMARY, primary);
        emit(store, middle + by, list - word::CHILD, path);
        move_words(store, start, middle, start + by);
        start
    }
}

// Writes what the record of an unpack or a tuple, which ends at `i`, becomes, up to `w`, and says how many words these are. What such a record
// has as its only child is a record of the pattern too where it is absent or a list.
fn put_over(store: &mut [u64], i: usize, w: usize) -> usize
    requires { (4 ≤ i) × (i ≤ w) × (w ≤ length store.old) }
    ensures { Over (over_words store.old i) w store.old result store.new }
{
    let word = store[i - 2];
    let inner = store[i - 4];
    let value = store[i - 3];
    if word != word::UNPACK {
        emit(store, w - 2, word::TUPLE_PATTERN, 0);
        emit(store, w - 4, inner, value);
        return 4;
    }
    emit(store, w - 2, word::PACK, 0);
    if inner == word::ABSENT {
        emit(store, w - 4, word::ABSENT, value);
        return 4;
    }
    2
}

// Turns the expression from `from` to `to`, which can be a pattern, into the pattern, and says where that ends.
// The pattern has no more records than the expression: they are written from the right, up to `to`, and then moved left to `from`. A group's value is 0 or
// 1 + its action.
pub fn move_to_pattern(store: &mut [u64], from: usize, to: usize) -> usize
    requires { AFit store.old from to }
    ensures { (t p : Tree) → Fit t p store.old from to → Stands p store.old from to result store.new }
{
    let mut i = to;
    let mut w = to;
    while from < i {
        prove!(2 <= i);
        let value = store[i - 1];
        match store[i - 2] {
            word::IDENTIFIER => {
                w -= 2;
                i -= 2;
                emit(store, w, word::IDENTIFIER_PATTERN, value);
            }
            word::GROUP => {
                i -= 2;
                if let Some(action) = value.checked_sub(1) {
                    w -= 2;
                    emit(store, w, word::MODIFIER, action);
                }
            }
            word::PRIMARY => {
                let start = move_access(store, i, w);
                w = start + (w - i);
                i = start;
            }
            // what can be a pattern and is none of these is an unpack or a tuple
            _ => {
                let n = put_over(store, i, w);
                w -= n;
                i -= n;
            }
        }
    }
    prove!(from <= w);
    move_words(store, w, to, from);
    from + (to - w)
}
