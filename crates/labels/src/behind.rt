// What encloses a tree, sought in the records behind it: from the tree on, h trees stand before the next record. A record with fewer children passes over the tree; one with as
// many or more is its parent's, and the tree is its last child if it is the only one that stands.
ghost use Rattle.std.specs.Prelude.{◌≡◌, ◌<◌};
ghost use Rattle.labels.specs.Offences.{any_serves};
ghost use Rattle.labels.specs.Entries.{kind_of};
ghost use Rattle.labels.specs.Behind.{enclosing, further as further_def, is_last as is_last_def, Next};

use crate::entries::{Jump, node_serves};
use tree::node;
use tree::word::CHILD;

// A node that has a tree in its last child, and the records behind it.
#[derive(Clone, Copy)]
pub struct Above<'a> {
    pub kind: u64,
    pub label: u64,
    pub behind: &'a [u64],
}

// How many trees stand from the tree on behind a record with n children, or from its parent on.
#[tactic(auto, unfolding(crate::specs::Behind::further))]
fn further(n: u64, h: u64) -> u64
    requires { h < 18446744073709551615 }
    ensures { result ≡ further_def n h }
{
    if n < h { h - n + 1 } else { 1 }
}

// Whether the tree is the last child of a node with n children.
#[tactic(auto, unfolding(crate::specs::Behind::is_last))]
fn is_last(n: u64, h: u64) -> bool
    ensures { result ≡ is_last_def n h }
{
    h == 1 && 0 < n
}

// The nearest node that has the tree before these records in its last child.
// Stays `while let`, here and in `any_behind`: what was found says where it goes on.
fn next_above(records: &[u64]) -> Option<Above>
    ensures { Next records.now result }
{
    let mut rest = records;
    let mut h: u64 = 1;
    while let [word, value, behind @ ..] = rest {
        let n = *word / CHILD;
        if is_last(n, h) {
            return Some(Above {
                kind: *word % CHILD,
                label: *value,
                behind,
            });
        }
        h = further(n, h);
        rest = behind;
    }
    None
}

// Whether something that encloses the tree before these records serves a break or continue, up to the nearest function.
pub fn any_behind(records: &[u64], jump: Jump) -> bool
    ensures { result ≡ any_serves (kind_of jump.kind) jump.label (enclosing 1 records.now) }
{
    let mut rest = records;
    while let Some(node) = next_above(rest) {
        if node.kind == node::FUNCTION_DEF {
            return false;
        }
        if node_serves(jump, node.kind, node.label) {
            return true;
        }
        rest = node.behind;
    }
    false
}
