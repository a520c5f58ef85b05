// What is said of one record: whether it is a break or continue that leads nowhere.
ghost use Rattle.std.specs.Prelude.{◌≡◌, ◌-◌, ◌%◌, true, false, get_or, drop, MatchOption};
ghost use Rattle.labels.specs.Offences.{offence as offence_def, any_serves as any_serves_def, noted as noted_def, is_jump as is_jump_def, offender as offender_def};
ghost use Rattle.labels.specs.Behind.{enclosing};
ghost use Rattle.labels.specs.Entries.{kind_of, Round};

use crate::behind::any_behind;
use crate::entries::{Entries, Jump, JumpKind};
use crate::{Offence, Refusal};
use tree::node;
use tree::word::CHILD;

// Stays a function and no TryFrom: that a kind is none is an answer here, and no error.
fn jump_kind(kind: u64) -> Option<JumpKind>
    ensures { MatchOption result (is_jump_def kind ≡ false) (λ j. (is_jump_def kind ≡ true) × (kind ≡ kind_of j)) }
{
    match kind {
        node::BREAK => Some(JumpKind::Break),
        node::CONTINUE => Some(JumpKind::Continue),
        _ => None,
    }
}

// Whether what encloses the record that ends at p serves it: by the entries, or by the records behind it where the entries are full. Out of line: few records ask it, and
// written in place its loops make the check take up to 2.5 % more instructions of each statement.
#[inline(never)]
fn any_serves(records: &[u64], entries: &Entries, p: usize, jump: Jump) -> bool
    requires { Round records.now entries.now.words.now entries.now.count p }
    ensures { result ≡ any_serves_def (kind_of jump.kind) jump.label (enclosing 1 (drop p records.now)) }
{
    if entries.is_full() {
        any_behind(&records[p..], jump)
    } else {
        entries.any_kept(jump)
    }
}

// The offence of an offender with this label.
fn offender(label: u64) -> Offence
    ensures { result ≡ offender_def label }
{
    if label == 0 {
        Offence::Unlabelled
    } else {
        Offence::Labelled
    }
}

// The offence of the record that ends at p, if it offends. The entries are what encloses it, unless they are full.
#[tactic(auto, unfolding(crate::specs::Offences::offence))]
pub fn offence(records: &[u64], entries: &Entries, p: usize) -> Option<Offence>
    requires { Round records.now entries.now.words.now entries.now.count p }
    ensures { result ≡ offence_def (enclosing 1 (drop p records.now)) (get_or records.now (p - 2) 0 % 256) (get_or records.now (p - 1) 0) }
{
    let kind = jump_kind(records[p - 2] % CHILD)?;
    let label = records[p - 1];
    if any_serves(records, entries, p, Jump { kind, label }) {
        return None;
    }
    Some(offender(label))
}

// The record number i has this offence, or, where it has none, what was found of those behind it stands.
pub fn noted(i: usize, offence: Option<Offence>, found: Result<(), Refusal>) -> Result<(), Refusal>
    ensures { result ≡ noted_def i offence found }
{
    match offence {
        Some(offence) => Err(Refusal::Offends(offence, i)),
        None => found,
    }
}
