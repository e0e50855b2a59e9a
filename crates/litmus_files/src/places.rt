//! The leaves of a test's threads, as a word of a command spells them.

ghost use Rattle.std.specs.Prelude.{◌≡◌, ◌++◌, ◌∷◌, [], ◌<◌, ◌≤◌, IfSome, length, nat_eq};
ghost use Rattle.std.specs.List.{list_any};
ghost use Rattle.std.specs.Option.{option_map};
ghost use Rattle.litmus_files.specs.Places.{leaf_of, next_leaf, places_in};
ghost use Rattle.litmus_files.specs.Different.{AreLeaves};

use ddm_text::read_decimal;
use std::marker::Model;

/// The leaves of a test's threads, all different, that of thread 0 first.
#[derive(Clone, Copy)]
pub struct Places {
    /// The leaves, and zeros.
    leaves: [u32; 64],
    count: u8,
}

impl Model for Places {
    ghost use Rattle.std.specs.Prelude.{List, ℕ, take, length, replicate, ◌++◌, ◌-◌};
    ghost use Rattle.std.specs.Coded.{coded_ℕ, coded_list};

    ghost Value = { List ℕ };

    ghost coded = { coded_list coded_ℕ };

    ghost use Rattle.litmus_files.specs.Kept.{IsPadded, padded_back};

    ghost view = { λ p. take p.count p.leaves };

    ghost invariant = { IsPadded };

    ghost inverse = { λ leaves. record { leaves = leaves ++ replicate (64 - length leaves) 0; count = length leaves } };

    ghost inverse_ok = { padded_back };
}

impl Places {
    fn none() -> Places
        ensures { result ≡ [] }
    {
        Places {
            leaves: [0; 64],
            count: 0,
        }
    }

    /// One leaf more, after the others.
    fn with(&self, leaf: u32) -> Places
        requires { length self.now < 64 }
        ensures { result ≡ self.now ++ leaf ∷ [] }
    {
        let mut leaves = self.leaves;
        leaves[self.count as usize] = leaf;
        Places {
            leaves,
            count: self.count + 1,
        }
    }

    pub fn leaves(&self) -> &[u32]
        ensures { result.now ≡ self.now }
    {
        &self.leaves[..self.count as usize]
    }
}

/// The leaf that bytes spell: 0 to 63 in its one spelling.
#[tactic(auto, unfolding(crate::specs::Places::leaf_of))]
fn leaf_of(bytes: &[u8]) -> Option<u32>
    ensures leaf { result ≡ leaf_of bytes.now }
    ensures small { IfSome result (λ leaf. leaf < 64) }
{
    match read_decimal(bytes, 63) {
        Ok(leaf) => Some(leaf as u32),
        Err(_) => None,
    }
}

#[tactic(auto, using(litmus_model::proofs::Searches::any_search))]
fn is_among(leaves: &[u32], leaf: u32) -> bool
    ensures { result ≡ list_any (nat_eq leaf) leaves.now }
{
    for other in leaves {
        if leaf == *other {
            return true;
        }
    }
    false
}

/// One place more, the leaf that bytes spell, which is another one than those before.
#[tactic(auto, using(crate::proofs::Leaves::room, crate::proofs::Leaves::more_leaves))]
fn with_next(places: &Places, bytes: &[u8]) -> Option<Places>
    requires { AreLeaves places.now }
    ensures next { result ≡ option_map (λ leaf. places.now ++ leaf ∷ []) (next_leaf places.now bytes.now) }
    ensures leaves { IfSome result AreLeaves }
{
    let leaf = leaf_of(bytes)?;
    if is_among(places.leaves(), leaf) {
        return None;
    }
    Some(places.with(leaf))
}

/// The different leaves that a word names, 0 to 63, with commas between them; None where it is no such list.
#[tactic(auto, using(crate::proofs::Leaves::no_leaves, crate::proofs::Pieces::piece_steps))]
pub fn read_places(word: &[u8]) -> Option<Places>
    ensures { result ≡ places_in word.now }
{
    let mut places = Places::none();
    let mut begun = 0;
    for (at, byte) in word.iter().enumerate() {
        if *byte == b',' {
            match with_next(&places, &word[begun..at]) {
                Some(more) => places = more,
                None => return None,
            }
            begun = at + 1;
        }
    }
    with_next(&places, &word[begun..])
}
