// What is kept of the nodes that enclose a place: loops, blocks and functions, three words each, the innermost last. A node's last child, its body, ends where the
// node's record begins, so its entry stands as long as no fewer trees are still to be visited than then. Where there is no room for one more, none is kept.
ghost use Rattle.std.specs.Prelude.{◌≡◌, ◌*◌, ◌-◌, ◌≤◌, ltb, length};
ghost use Rattle.labels.specs.Offences.{any_serves, means as means_def};
ghost use Rattle.labels.specs.Entries.{kind_of, held, around, encloses as encloses_def, node_serves as node_serves_def, Entered, Stands};

use tree::node;

#[derive(Clone, Copy, Debug, PartialEq, Eq)]
pub enum JumpKind {
    Break,
    Continue,
}

// A break or a continue, with its label.
// Stays 0, or 1 + the name, for the label: it is the value of a record, of which is asked only whether it is 0 and whether it is another's.
#[derive(Clone, Copy, Debug, PartialEq, Eq)]
pub struct Jump {
    pub kind: JumpKind,
    pub label: u64,
}

// The words of an entry.
// Stays words and no array of entries: the same memory is lent to the decision for 65 before.
const ENTRY: usize = 3;

// Lent words, and how many entries they hold, from the first word on.
#[derive(Drop)]
pub struct Entries<'a> {
    pub words: &'a mut [u64],
    pub count: usize,
    pub ghost room: { 3 * count ≤ length words.now },
}

// Whether a node of this kind encloses its last child.
#[tactic(auto, unfolding(crate::specs::Entries::encloses))]
fn encloses(kind: u64) -> bool
    ensures { result ≡ encloses_def kind }
{
    matches!(
        kind,
        node::LOOP | node::WHILE_LOOP | node::FOR_LOOP | node::BLOCK | node::FUNCTION_DEF
    )
}

// Whether a break or continue with this label may mean what has the other one.
fn means(label: u64, other: u64) -> bool
    ensures { result ≡ means_def label other }
{
    label == 0 || label == other
}

// Whether a loop or block serves a break or continue: a loop both, a block a break.
#[tactic(auto, unfolding(crate::specs::Entries::node_serves))]
pub fn node_serves(jump: Jump, kind: u64, other: u64) -> bool
    ensures { result ≡ node_serves_def (kind_of jump.kind) jump.label kind other }
{
    match kind {
        node::LOOP | node::WHILE_LOOP | node::FOR_LOOP => means(jump.label, other),
        node::BLOCK => jump.kind == JumpKind::Break && means(jump.label, other),
        _ => false,
    }
}

impl Entries<'_> {
    // Whether one of the entries serves it, up to the nearest function.
    pub fn any_kept(&self, jump: Jump) -> bool
        ensures { result ≡ any_serves (kind_of jump.kind) jump.label (around (held self.now.words.now self.now.count)) }
    {
        for i in (0..self.count).rev() {
            let kind = self.words[ENTRY * i];
            if kind == node::FUNCTION_DEF {
                return false;
            }
            if node_serves(jump, kind, self.words[ENTRY * i + 1]) {
                return true;
            }
        }
        false
    }

    // Whether there is no room for one entry more.
    pub fn is_full(&self) -> bool
        ensures { result ≡ ltb (length self.now.words.now - 3 * self.now.count) 3 }
    {
        self.words.len() - ENTRY * self.count < ENTRY
    }

    // Leaves the entries that don't stand round the last of the pending trees.
    pub fn leave(&mut self, pending: u64)
        ensures stands { Stands self.old.words.now self.old.count pending self.new.count }
        ensures same { self.new.words.now ≡ self.old.words.now }
    {
        // Stays `while`: the struct's own count goes down with each entry that is given up.
        while 0 < self.count && pending < self.words[ENTRY * self.count - 1] {
            self.count -= 1;
        }
    }

    // Keeps an entry for a node with so many children, if it encloses the last of them and there is room. So many trees are pending behind it, the last
    // child first.
    pub fn enter(&mut self, kind: u64, label: u64, kids: u64, pending: u64)
        ensures entered { Entered self.old.words.now self.new.words.now self.old.count kind label kids pending self.new.count }
        ensures long { length self.new.words.now ≡ length self.old.words.now }
    {
        if kids == 0 || !encloses(kind) || self.is_full() {
            return;
        }
        let at = ENTRY * self.count;
        self.words[at] = kind;
        self.words[at + 1] = label;
        self.words[at + 2] = pending;
        self.count += 1;
    }
}
