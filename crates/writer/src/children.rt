// What is found of a node by its own children, the last of the trees that stand before it (standing.rt): its mode (mode.rt), whether it begins
// with a label, and whether it serves a `fun` with a target. Where the children are kept no records are passed over.
ghost use Rattle.std.specs.Prelude.{◌&&◌};
ghost use Rattle.tree.specs.Tree.{head_kind};
ghost use Rattle.grammar.specs.Canonical.Write.{tail_of, target_atom as target_atom_def, target_path, is_target as is_target_def};
ghost use Rattle.tables.specs.Children.{kind_in, count_in, value_in, children_in, last_in};
ghost use Rattle.tables.specs.Class.{list_class as list_class_def};
ghost use Rattle.tables.specs.Check.{function_form as function_form_def, inner_class, mode_of, begins_labelled as begins_labelled_def};
ghost use Rattle.writer.specs.Stack.{Says, Skipped, kid_in};
ghost use Rattle.writer.specs.Standing.{TreeAt, NodeAt, SoundAt, Tells, serves as serves_def};
ghost use Rattle.writer.specs.Verdict.{First, Items};

use crate::class;
use crate::class::{EMPTY, NOTHING, list_class};
use crate::kinds::{passes, target_atom};
use crate::legal::Kids;
use crate::mode::inner_mode;
use crate::records::{count_at, kind_at, value_at};
use crate::standing::Standing;
use crate::target::{NAMED, NOT_GIVEN, UNNAMED, function_serves, target_receiver};
use tree::node;

impl Standing<'_> {
    // Whether the tree number i, which ends at q, can be a target.
    fn target_by(&self, i: usize, q: usize) -> bool
        requires { TreeAt self.now i q }
        ensures { Tells self.now.records.now q (λ t s. is_target_def t) result }
    {
        match kind_at(self.records, q) {
            node::IDENTIFIER_PATTERN => true,
            node::ATTRIBUTE_PATTERN => self.serves_of(i, q),
            node::INDEX_PATTERN => self.serves_of(i, q),
            _ => false,
        }
    }

    // What function_form says of the assignment that ends at p.
    fn form_by(&self, p: usize) -> u64
        requires { NodeAt self.now p × Says self.now.records.now p count_in 2 }
        ensures { Says self.now.records.now p (λ m. function_form_def (children_in m)) result }
    {
        let function = p - 2;
        if kind_at(self.records, function) != node::FUNCTION_DEF {
            return NOT_GIVEN;
        }
        if !self.serves_of(self.count - 1, function) {
            return NOT_GIVEN;
        }
        let target = self.begin_of(self.count - 1, function);
        if !self.target_by(self.count - 2, target) {
            return NOT_GIVEN;
        }
        if self.class_of(self.count - 1, function) == class::NAMED {
            return NAMED;
        }
        UNNAMED
    }

    // The mode of the list that ends at p: its class, by its last member.
    fn list_by(&self, p: usize) -> u64
        requires { NodeAt self.now p }
        ensures { Says self.now.records.now p (λ m. list_class_def (count_in m) (inner_class (last_in m))) result }
    {
        let n = count_at(self.records, p);
        if n == 0 {
            return EMPTY;
        }
        let last = p - 2;
        if kind_at(self.records, last) == node::LIST {
            return list_class(n, NOTHING);
        }
        list_class(n, self.class_of(self.count - 1, last))
    }

    // The mode of the function that ends at p: its signature's name.
    fn name_by(&self, p: usize) -> u64
        requires { NodeAt self.now p × Says self.now.records.now p count_in 2 }
        ensures { Says self.now.records.now p (λ m. value_in (kid_in 1 m)) result }
    {
        let signature = self.begin_of(self.count - 1, p - 2);
        value_at(self.records, signature)
    }

    // The mode of the node that ends at p.
    pub fn mode_by(&self, p: usize) -> u64
        requires { NodeAt self.now p × SoundAt self.now.records.now p }
        ensures { Says self.now.records.now p (λ m. mode_of (kind_in m) (children_in m)) result }
    {
        match kind_at(self.records, p) {
            node::LIST => self.list_by(p),
            node::ASSIGNMENT => self.form_by(p),
            node::FUNCTION_DEF => self.name_by(p),
            _ => inner_mode(self.records, p),
        }
    }

    // Whether the node that ends at p begins with a label. Its first child, if there is one, ends at `first`.
    pub fn labelled_by(&self, p: usize, first: usize) -> bool
        requires { NodeAt self.now p × First self.now.records.now p first }
        ensures { Tells self.now.records.now p (λ t s. begins_labelled_def t) result }
    {
        let kind = kind_at(self.records, p);
        if passes(kind) {
            let n = count_at(self.records, p) as usize;
            if n == 0 {
                return false;
            }
            return self.labelled_of(self.count - n, first);
        }
        if kind == node::BLOCK {
            return 0 < value_at(self.records, p);
        }
        false
    }

    // Whether the tree number i, which ends at q, can begin a target: an atom that is no group, and a path without calls.
    fn receiver_by(&self, i: usize, q: usize) -> bool
        requires { TreeAt self.now i q }
        ensures { Tells self.now.records.now q (λ t s. target_atom_def (head_kind (children_in (Some t))) && target_path (tail_of (children_in (Some t)))) result }
    {
        if kind_at(self.records, q) == node::PRIMARY {
            return self.serves_of(i, q);
        }
        target_receiver(self.records, q)
    }

    // The same of the primary that ends at p.
    fn primary_by(&self, p: usize) -> bool
        requires { NodeAt self.now p × Says self.now.records.now p count_in 2 }
        ensures { Tells self.now.records.now p (λ t s. target_atom_def (head_kind (children_in (Some t))) && target_path (tail_of (children_in (Some t)))) result }
    {
        let path = p - 2;
        if kind_at(self.records, path) != node::LIST {
            return target_receiver(self.records, p);
        }
        if !self.serves_of(self.count - 1, path) {
            return false;
        }
        let atom = self.begin_of(self.count - 1, path);
        target_atom(kind_at(self.records, atom))
    }

    // Whether the node that ends at p and has the mode m serves a `fun` with a target, by what was found of its children.
    pub fn serves_by(&self, p: usize, m: u64, kids: Kids) -> bool
        requires { NodeAt self.now p × SoundAt self.now.records.now p × Says self.now.records.now p (λ m. mode_of (kind_in m) (children_in m)) m × Skipped self.now.records.now p kids.begin × Items self.now.records.now p kids.items }
        ensures { Tells self.now.records.now p serves_def result }
    {
        match kind_at(self.records, p) {
            node::LIST => kids.items,
            node::PRIMARY => self.primary_by(p),
            node::ATTRIBUTE_PATTERN => self.receiver_by(self.count - 1, p - 2),
            node::INDEX_PATTERN => {
                let receiver = self.begin_of(self.count - 1, p - 2);
                self.receiver_by(self.count - 2, receiver)
            }
            node::FUNCTION_DEF => function_serves(self.records, p, m, kids.begin),
            _ => false,
        }
    }
}
