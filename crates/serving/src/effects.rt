//! Effects are compared.

ghost use Rattle.std.specs.Prelude.{◌≡◌};
ghost use Rattle.serving.specs.FlatModel.Legal.{same_effect};

use ddm_types::Effect;

pub(crate) fn same_effect(made: &Effect, said: &Effect) -> bool
    ensures { result ≡ same_effect made.now said.now }
{
    made == said
}
