// How trees begin and end: with a label, in a tuple of one member.
ghost use Rattle.std.specs.Prelude.{false, not, ◌&&◌};
ghost use Rattle.std.specs.Option.{option_map_or};
ghost use Rattle.writer.specs.Stack.{Somewhere, Says};
ghost use Rattle.tables.specs.Kinds.{closed as closed_def};
ghost use Rattle.tables.specs.Check.{begins_labelled as begins_labelled_def, ends_single as ends_single_def};

use crate::kinds::{closed, passes};
use crate::records::{count_at, kid_of, kind_at, last_of, value_at};
use tree::node;

// Stays `while`, here and in ends_single: it goes from tree to tree down to one of another kind, and nothing is counted.

// Whether the tree that ends at p begins with a label: down the first children to a labelled block.
pub fn begins_labelled(records: &[u64], p: usize) -> bool
    requires { Somewhere records.now p }
    ensures { Says records.now p (λ m. option_map_or begins_labelled_def m false) result }
{
    let mut q = p;
    while passes(kind_at(records, q)) {
        q = kid_of(records, q, 1);
    }
    if kind_at(records, q) == node::BLOCK {
        return 0 < value_at(records, q);
    }
    false
}

// Whether the tree that ends at p ends in a tuple of one member: down the right sides of assignments.
fn ends_single(records: &[u64], p: usize) -> bool
    requires { Somewhere records.now p }
    ensures { Says records.now p (λ m. option_map_or ends_single_def m false) result }
{
    let mut q = p;
    while kind_at(records, q) == node::ASSIGNMENT {
        q = last_of(records, q);
    }
    if kind_at(records, q) == node::TUPLE {
        return count_at(records, last_of(records, q)) == 1;
    }
    false
}

// Whether the tree that ends at q may not stand as a child of a node by how it ends.
pub fn ends_wrong(records: &[u64], kind: u64, q: usize) -> bool
    requires { Somewhere records.now q }
    ensures { Says records.now q (λ m. not (closed_def kind) && option_map_or ends_single_def m false) result }
{
    if closed(kind) {
        return false;
    }
    ends_single(records, q)
}
