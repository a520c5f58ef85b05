// Whether words are the records of a tree that a clean reading, limits aside, can give. No recursion: the nodes are visited from the
// first record to the last, and each is held against its children's classes.
ghost use Rattle.std.specs.Prelude.{◌&&◌};
ghost use Rattle.tables.specs.Children.{kind_in};
ghost use Rattle.tables.specs.Kinds.{target_item as target_item_def, unlabelled as unlabelled_def};
ghost use Rattle.tables.specs.Check.{begins_labelled};
ghost use Rattle.writer.specs.Stack.{Here};
ghost use Rattle.writer.specs.Standing.{TreeAt, NodeAt, Tells};
ghost use Rattle.writer.specs.Verdict.{KidFits, KidsFit, Visited, Whole, Legal};

use crate::class::{STATEMENT, class};
use crate::demand::{demand, fits};
use crate::edges::ends_wrong;
use crate::kinds::{target_item, unlabelled};
use crate::records::{count_at, kind_at, value_at};
use crate::sound::sound;
use crate::standing::{Standing, word_of};

// What is found of a node's children that may stand where they stand: where the node's tree begins, where its first child ends, and whether all are
// members and indexes of a path.
#[derive(Clone, Copy)]
pub struct Kids {
    pub begin: usize,
    pub first: usize,
    pub items: bool,
}

// Whether the tree that ends at q is a member or an index of a path, and those behind it are.
fn item_too(records: &[u64], q: usize, items: bool) -> bool
    requires { Here records.now q }
    ensures { Tells records.now q (λ t s. items && target_item_def (kind_in (Some t))) result }
{
    items && target_item(kind_at(records, q))
}

impl Standing<'_> {
    // Whether the tree number i, which ends at q, may not stand as a child of a node by how it begins.
    fn starts_wrong(&self, i: usize, q: usize, kind: u64, value: u64) -> bool
        requires { TreeAt self.now i q }
        ensures { Tells self.now.records.now q (λ t s. unlabelled_def kind value && begins_labelled t) result }
    {
        unlabelled(kind, value) && self.labelled_of(i, q)
    }

    // Whether the tree number i, which ends at q, may stand as a child of a node that a class is demanded of.
    // Stays six: one place calls it, and a struct would be made there and taken apart here.
    fn kid_fits(&self, i: usize, q: usize, kind: u64, value: u64, asked: u64) -> bool
        requires { TreeAt self.now i q }
        ensures { KidFits self.now.records.now kind value asked q result }
    {
        fits(asked, self.class_of(i, q))
            && !self.starts_wrong(i, q, kind, value)
            && !ends_wrong(self.records, kind, q)
    }

    // Whether the children of the node that ends at p and has the mode m may stand where they stand, from the last tree to the first child; if so,
    // what is found of them.
    // Stays counted by hand, the trees' numbers beside the children's: a zip of two ranges that go down is no plainer.
    fn kids_fit(&self, p: usize, m: u64) -> Option<Kids>
        requires { NodeAt self.now p }
        ensures { KidsFit self.now.records.now p m result }
    {
        let kind = kind_at(self.records, p);
        let value = value_at(self.records, p);
        let n = count_at(self.records, p);
        let mut i = self.count;
        let mut q = p - 2;
        let mut first = q;
        let mut items = true;
        for j in (1..=n).rev() {
            i -= 1;
            let asked = demand(kind, value, m, j);
            if !self.kid_fits(i, q, kind, value, asked) {
                return None;
            }
            items = item_too(self.records, q, items);
            first = q;
            q = self.begin_of(i, q);
        }
        Some(Kids {
            begin: q,
            first,
            items,
        })
    }

    // Whether the node that ends at p, behind all trees, may stand, its own place aside; if so, what is to be kept of it, if it is kept.
    fn visit(&self, p: usize) -> Option<Option<u64>>
        requires { NodeAt self.now p }
        ensures { Visited self.now.records.now p result }
    {
        let kind = kind_at(self.records, p);
        let value = value_at(self.records, p);
        if !sound(kind, value, count_at(self.records, p)) {
            return None;
        }
        let m = self.mode_by(p);
        let kids = self.kids_fit(p, m)?;
        let labelled = self.labelled_by(p, kids.first);
        let serves = self.serves_by(p, m, kids);
        Some(word_of(class(kind, value, m), labelled, serves, kids.begin))
    }
}

// Whether the tree whose records these are is one that a clean reading can give as a statement. The words of `kept` are any; the more there are, the
// less is sought again.
pub fn legal(records: &[u64], kept: &mut [u64]) -> bool
    requires { Whole records.now }
    ensures { Legal records.now result }
{
    let mut standing = Standing {
        records,
        kept,
        base: 0,
        count: 0,
    };
    for node in 0..records.len() / 2 {
        let p = 2 * node + 2;
        let Some(word) = standing.visit(p) else {
            return false;
        };
        let i = standing.count - count_at(records, p) as usize;
        standing.stand(i, word);
    }
    standing.class_of(0, records.len()) == STATEMENT
}
