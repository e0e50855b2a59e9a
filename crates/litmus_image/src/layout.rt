//! Where a test's locations are, and what registers and locations begin with.

ghost use Rattle.std.specs.Prelude.{◌≡◌, ◌+◌, ◌*◌, ◌≤◌, ◌<◌, bytes_eq, length};
ghost use Rattle.std.specs.List.{position_or_len};
ghost use Rattle.litmus_model.specs.Kept.{test_from};
ghost use Rattle.litmus_model.specs.Image.{first_value, word_of};

use litmus_model::{Given, Name, Target, Test, Value, same_name, same_target};

/// Where the first location is.
pub(crate) const MEMORY: u32 = 0x20_0000;

/// The number of the first of these names that is this one; how many they are, where none is.
#[tactic(auto, using(litmus_model::proofs::Searches::position_search))]
fn place_of(names: &[Name], name: &Name) -> usize
    ensures place { result ≡ position_or_len (bytes_eq name.now) names.now }
    ensures inside { result ≤ length names.now }
{
    for (place, other) in names.iter().enumerate() {
        if same_name(name, other) {
            return place;
        }
    }
    names.len()
}

/// The word that a value is.
#[tactic(auto, unfolding(litmus_model::specs::Image::address_of))]
pub fn word_of(test: &Test, item_bytes: u32, value: &Value) -> u32
    requires few { length test.now.locations.items ≤ 256 }
    requires small { item_bytes ≤ 64 }
    ensures { result ≡ word_of (test_from test.now) item_bytes value.now }
{
    match value {
        Value::Number(number) => *number,
        Value::Address(name) => MEMORY + item_bytes * place_of(&test.locations, name) as u32,
    }
}

/// What is given of a target, and 0 where nothing is.
#[tactic(auto, using(litmus_model::proofs::Searches::find_search), unfolding(litmus_model::specs::Image::first_value))]
pub(crate) fn first_value(test: &Test, target: &Target) -> Value
    ensures { result ≡ first_value (test_from test.now) target.now }
{
    for given in &test.init {
        if same_target(&given.target, target) {
            return given.value;
        }
    }
    Value::Number(0)
}
