//! The name of a label or a location, or any other word of a test.

ghost use Rattle.std.specs.Prelude.{◌≡◌, ◌≤◌, bytes_eq, length};
ghost use Rattle.litmus_model.specs.Padded.{padded};

use std::marker::Model;

/// The bytes of a word, of which there are at most 127.
#[derive(Clone, Copy)]
pub struct Name {
    /// The bytes, and zeros.
    bytes: [u8; 127],
    count: u8,
}

impl Model for Name {
    ghost use Rattle.std.specs.Prelude.{List, ℕ, take, length};
    ghost use Rattle.std.specs.Coded.{coded_ℕ, coded_list};

    ghost Value = { List ℕ };

    ghost coded = { coded_list coded_ℕ };

    ghost use Rattle.litmus_model.specs.Padded.{IsPadded, padded, padded_back};

    ghost view = { λ n. take n.count n.bytes };

    ghost invariant = { IsPadded };

    ghost inverse = { λ bytes. record { bytes = padded bytes; count = length bytes } };

    ghost inverse_ok = { padded_back };
}

/// The bytes, and zeros up to 127 bytes.
#[tactic(auto, using(crate::specs::Padded::zeros_after))]
fn padded(bytes: &[u8]) -> [u8; 127]
    requires { length bytes.now ≤ 127 }
    ensures { result ≡ padded bytes.now }
{
    let mut all = [0; 127];
    all[..bytes.len()].copy_from_slice(bytes);
    all
}

impl Name {
    #[tactic(auto, using(crate::specs::Padded::is_padded, crate::specs::Padded::front_of_padded))]
    pub fn new(bytes: &[u8]) -> Name
        requires { length bytes.now ≤ 127 }
        ensures { result ≡ bytes.now }
    {
        Name {
            bytes: padded(bytes),
            count: bytes.len() as u8,
        }
    }

    pub fn bytes(&self) -> &[u8]
        ensures { result.now ≡ self.now }
    {
        &self.bytes[..self.count as usize]
    }
}

/// Whether two names are the same.
pub fn same_name(one: &Name, other: &Name) -> bool
    ensures { result ≡ bytes_eq one.now other.now }
{
    *one.bytes() == *other.bytes()
}
