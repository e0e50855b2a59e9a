//! The law that shapes are read by their grammar.

ghost use Rattle.std.specs.Prelude.{ℕ, ◌≡◌, ◌↔◌, Ok, Err};
ghost use Rattle.tree_config.specs.ShapeGrammar.{IsLongestBeginning, IsTextOf};
ghost use Rattle.tree_config.specs.ShapeText.{Tree, shape_of};

/// Does nothing: its contract says what the reading of a shape's text has to do with the grammar of shapes.
pub fn shapes_by_grammar(text: &[u8])
    ensures shape { (t : Tree) → (shape_of text.now ≡ Ok t) ↔ IsTextOf t text.now }
    ensures place { (place : ℕ) → shape_of text.now ≡ Err place → IsLongestBeginning text.now place }
{
    let _ = text;
}
