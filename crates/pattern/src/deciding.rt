// The first step: whether an expression can be a pattern. Nothing else decides it, and no function here takes a store that it could write.
ghost use Rattle.std.specs.Prelude.{◌≡◌};
ghost use Rattle.tree.specs.Tree.{Tree};
ghost use Rattle.grammar.specs.Reading.Pattern.{can_be_pattern as can_be_pattern_def};
ghost use Rattle.pattern.specs.Contract.{Whole, ATree, has_members as has_members_def};

use tree::{node, skip, word};

// Whether a first word is that of a list with members.
fn has_members(word: u64) -> bool
    ensures { result ≡ has_members_def word }
{
    word % word::CHILD == node::LIST && word::CHILD <= word
}

// Whether the expression from `from` to `to` can be a pattern: exactly if the definition makes one of it.
// It is decided over the whole: each part that is to be a pattern is met, the last one first, and the first that cannot be one ends it.
// Stays `while`, here and in `move_to_pattern`: a record says how many are passed at once.
pub fn can_be_pattern(store: &[u64], from: usize, to: usize) -> bool
    requires { ATree store.now from to }
    ensures { (t : Tree) → Whole t store.now from to → result ≡ can_be_pattern_def t }
{
    let mut i = to;
    while from < i {
        prove!(2 <= i);
        match store[i - 2] {
            word::IDENTIFIER | word::GROUP => i -= 2,
            word::UNPACK if store[i - 4] == word::ABSENT => i -= 4,
            word::UNPACK => i -= 2,
            word::TUPLE if has_members(store[i - 4]) => i -= 4,
            word::PRIMARY if has_members(store[i - 4]) => {
                prove!(8 <= i);
                let n = store[i - 4] / word::CHILD;
                match store[i - 6] {
                    word::ATTRIBUTE => i = skip(store, i - 6, n),
                    word::INDEX => i = skip(store, i - 6, n + 1),
                    _ => return false,
                }
            }
            _ => return false,
        }
    }
    true
}
