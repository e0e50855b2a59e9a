//! The keys of a tree file.

ghost use Rattle.std.specs.Prelude.{◌≡◌};
ghost use Rattle.tree_config.specs.Ranges.{is_allowed, is_between};
ghost use Rattle.tree_config.specs.TreeFile.{is_known, key_name};

use crate::refusal::TreeKey;

impl TreeKey {
    /// How a tree file spells the key.
    pub fn name(self) -> &'static str
        ensures { result.now ≡ key_name self }
    {
        match self {
            TreeKey::Shape => "shape",
            TreeKey::Ways => "ways",
            TreeKey::Sets => "sets",
            TreeKey::Buffer => "buffer",
            TreeKey::Parking => "parking",
            TreeKey::Down => "down",
            TreeKey::Requests => "requests",
            TreeKey::Replies => "replies",
            TreeKey::StackBase => "stack_base",
            TreeKey::StackBytes => "stack_bytes",
            TreeKey::ItemBytes => "item_bytes",
        }
    }
}

pub(crate) fn is_known_key(name: &str) -> bool
    ensures { result ≡ is_known name.now }
{
    matches!(
        name,
        "shape"
            | "ways"
            | "sets"
            | "buffer"
            | "parking"
            | "down"
            | "requests"
            | "replies"
            | "stack_base"
            | "stack_bytes"
            | "item_bytes"
    )
}

fn is_in(low: u32, high: u32, n: u32) -> bool
    ensures { result ≡ is_between low high n }
{
    low <= n && n <= high
}

/// Whether the key may have this number, whatever the other keys have.
pub(crate) fn is_allowed_number(key: TreeKey, n: u32) -> bool
    ensures { result ≡ is_allowed key n }
{
    match key {
        TreeKey::Shape => false,
        TreeKey::Ways => n == 1 || n == 2 || n == 4,
        TreeKey::Sets => is_in(1, 4096, n),
        TreeKey::Buffer => is_in(1, 16, n),
        TreeKey::Parking => is_in(1, 64, n),
        TreeKey::Down => is_in(1, 4096, n),
        TreeKey::Requests => is_in(1, 4096, n),
        TreeKey::Replies => is_in(1, 4096, n),
        TreeKey::StackBase => n <= 4_294_967_280 && n % 16 == 0,
        TreeKey::StackBytes => n <= 1_048_576 && n % 16 == 0,
        TreeKey::ItemBytes => n == 16 || n == 64,
    }
}
