//! Division by a number that stays the same.

ghost use Rattle.std.specs.Prelude.{◌≡◌, ◌≤◌, ◌/◌, ◌%◌};

use std::marker::Model;

/// A number by which others are divided, with the whole part of 2^64 - 1 by it: so a division is a multiplication. A contract sees
/// the number.
#[derive(Drop)]
pub struct Divisor {
    by: u32,
    reciprocal: u64,
}

impl Model for Divisor {
    ghost use Rattle.std.specs.Prelude.{ℕ};
    ghost use Rattle.ddm_types.specs.Divisors.{IsReciprocal};

    ghost Value = { ℕ };

    ghost view = { λ d. d.by };

    ghost invariant = { λ d. IsReciprocal d.by d.reciprocal };
}

impl Divisor {
    pub fn new(by: u32) -> Divisor
        requires { 1 ≤ by }
        ensures { result ≡ by }
    {
        Divisor {
            by,
            reciprocal: u64::MAX / u64::from(by),
        }
    }

    pub fn by(&self) -> u32
        ensures { result ≡ self.now }
    {
        self.by
    }

    // The quotient alone: that whole part times one more than the number, without its last 64 bits.
    #[inline]
    fn quotient(&self, n: u32) -> u32
        ensures { result ≡ n / self.now }
    {
        let scaled = (u128::from(n) + 1) * u128::from(self.reciprocal);
        (scaled >> 64) as u32
    }

    /// The quotient and the remainder.
    #[inline]
    pub fn divide(&self, n: u32) -> (u32, u32)
        ensures quotient { result.0 ≡ n / self.now }
        ensures remainder { result.1 ≡ n % self.now }
    {
        let quotient = self.quotient(n);
        (quotient, n - quotient * self.by)
    }

    /// The remainder alone.
    #[inline]
    pub fn remainder(&self, n: u32) -> u32
        ensures { result ≡ n % self.now }
    {
        self.divide(n).1
    }
}
