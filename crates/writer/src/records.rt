// Finding one's way in records. A tree is named by its end: the place behind its last record, which is its root's. A node's last child
// ends two words before the node, and a child's next older sibling ends where the child's records begin. 0 is the end of no tree, and
// stands for a child that is not there: its kind, the count of its children and its value are 0.
// Stays 0 and no Option: each of the three is asked of a child that may not be there, and would be written with 0 at each place.
// Stays the records and a place, two parameters, and no slice up to it: a place is what is kept of a tree in a word, what each function answers, and what others go on from.
ghost use Rattle.std.specs.Prelude.{◌≤◌};
ghost use Rattle.writer.specs.Stack.{Here, Somewhere, Shape, Skipped, Says, LastOf, KidOf};
ghost use Rattle.tables.specs.Children.{kind_in, count_in, value_in};

use tree::word::CHILD;

// Whether the words are those of one tree: from the first to the last, by the number of trees that stand so far.
pub fn shape(records: &[u64]) -> bool
    ensures { Shape records.now result }
{
    let mut h: u64 = 0;
    for i in 0..records.len() / 2 {
        let n = records[2 * i] / CHILD;
        if h < n {
            return false;
        }
        h = h - n + 1;
    }
    records.len() % 2 == 0 && h == 1
}

// The kind of the tree that ends at p.
pub fn kind_at(records: &[u64], p: usize) -> u64
    requires { Somewhere records.now p }
    ensures { Says records.now p kind_in result }
{
    if p < 2 {
        return 0;
    }
    records[p - 2] % CHILD
}

// The count of its children.
pub fn count_at(records: &[u64], p: usize) -> u64
    requires { Somewhere records.now p }
    ensures { Says records.now p count_in result }
{
    if p < 2 {
        return 0;
    }
    records[p - 2] / CHILD
}

pub fn value_at(records: &[u64], p: usize) -> u64
    requires { Somewhere records.now p }
    ensures { Says records.now p value_in result }
{
    if p < 2 {
        return 0;
    }
    records[p - 1]
}

// Where the records of the tree that ends at p begin.
pub fn skip(records: &[u64], p: usize) -> usize
    requires { Here records.now p }
    ensures { Skipped records.now p result }
{
    tree::skip(records, p, 1)
}

// The last child of the tree that ends at p, or 0.
pub fn last_of(records: &[u64], p: usize) -> usize
    requires { Somewhere records.now p }
    ensures { LastOf records.now p result }
{
    if count_at(records, p) == 0 {
        return 0;
    }
    p - 2
}

// The child number j, from 1, of the tree that ends at p, or 0.
pub fn kid_of(records: &[u64], p: usize, j: u64) -> usize
    requires somewhere { Somewhere records.now p }
    requires le_j { 1 ≤ j }
    ensures { KidOf records.now p j result }
{
    let n = count_at(records, p);
    if n < j {
        return 0;
    }
    let mut q = p - 2;
    for _ in j..n {
        q = skip(records, q);
    }
    q
}
