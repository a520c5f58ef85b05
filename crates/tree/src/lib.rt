// A tree's records in a lent store: writing one, clearing what is behind them, making room for a block's result, and passing over trees; and the numbers that records have.
#![tactic(auto)]

ghost use Rattle.std.specs.Prelude.{◌≡◌, List, ℕ, ◌++◌, ◌+◌, ◌-◌, ◌≤◌, length, take, replicate};
ghost use Rattle.tree.specs.Rows.{Trees, Ended, Starts};
ghost use Rattle.tree.specs.Store.{Emitted, Led, Result};

pub mod node;
pub mod word;

// Writes a record, and answers the place behind it.
pub fn emit(store: &mut [u64], at: usize, word: u64, value: u64) -> usize
    requires { at + 2 ≤ length store.old }
    ensures { Emitted at word value result store.old store.new }
{
    store[at] = word;
    store[at + 1] = value;
    at + 2
}

// The words from a place on become 0. The place may lie past the end.
pub fn clear(store: &mut [u64], from: usize)
    ensures { store.new ≡ take from store.old ++ replicate (length store.old - from) 0 }
{
    if from < store.len() {
        store[from..].fill(0);
    }
}

// The first m words move right by three records: in front of them stand a list of n statements, no control, and their statement list.
fn lead(part: &mut [u64], m: usize, n: u64)
    requires { (m + 6 ≤ length part.old) × (n ≤ 65536) }
    ensures { Led m n part.old part.new }
{
    part.copy_within(0..m, 6);
    let a = emit(part, 0, word::LIST + word::CHILD * n, 0);
    let b = emit(part, a, word::ABSENT, 0);
    emit(part, b, word::STMT_LIST, 0);
}

// A block's last statement becomes its result: the words from `last` to `end` move behind the list of the n statements before it.
// Out of line, so that the loops of `copy_within` make no frame larger of the reader's functions, which recurse.
#[inline(never)]
pub fn block_result(store: &mut [u64], last: usize, end: usize, n: u64)
    requires { (last ≤ end) × (end + 6 ≤ length store.old) × (n ≤ 65536) }
    ensures { Result last end n store.old store.new }
{
    lead(&mut store[last..], end - last, n);
}

// Where the n trees start that end at `to`: each record that is passed is a tree less, and its children more.
// Stays `while`: `need` counts trees, and only the records say how many turns that makes.
pub fn skip(store: &[u64], to: usize, n: u64) -> usize
    requires { (to ≤ length store.now) × Ended (take to store.now) n }
    ensures { (B : List ℕ) → Trees B (take to store.now) n → Starts B store.now result }
{
    let mut i = to;
    let mut need = n;
    while 0 < need {
        prove!(2 <= i);
        i -= 2;
        need = need - 1 + store[i] / word::CHILD;
    }
    i
}
