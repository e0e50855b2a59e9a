//! What a search finds, as theorems: each clause is one, and there is nothing to run.

ghost use Rattle.std.specs.Prelude.{◌≡◌, ℕ, ◌<◌, Bool, true, false};
ghost use Rattle.search_laws.specs.Space.{Space};
ghost use Rattle.search_laws.specs.Search.{searched};
ghost use Rattle.search_laws.specs.Rules.{KeepsAlike, EndsStay, QuietFirst};
ghost use Rattle.search_laws.specs.Claims.{IsRight};

/// A search finds the outcomes that there are, each by a shortest way; so do the lemmas of it say, of states, turns and outcomes of
/// any type. Here they are numbers.
pub fn searches_are_right()
    ensures { (space : Space ℕ ℕ ℕ) (alike is_quiet : ℕ → ℕ → Bool) (is_fit : ℕ → Bool)
        → KeepsAlike space (λ s r. alike s r ≡ true) → EndsStay space (λ s r. alike s r ≡ true)
        → QuietFirst space (λ s r. alike s r ≡ true) (λ s t. is_quiet s t ≡ true) (λ s. is_fit s ≡ true)
        → (most m : ℕ) → 0 < most → is_fit m ≡ true → space.ended m ≡ false → IsRight space m (searched space most m) }
{}
