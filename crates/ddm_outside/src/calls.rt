//! The numbers of calls that are to fail.

ghost use Rattle.std.specs.Prelude.{◌↔◌, IsTrue, Contains};

// Whether a call of this number is one that fails.
pub fn is_listed(fail: &[u64], call: u64) -> bool
    ensures { IsTrue result ↔ Contains fail.now call }
{
    fail.contains(&call)
}
