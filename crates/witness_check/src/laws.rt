//! What holds of every text, as theorems: each clause is one, and there is nothing to run.

ghost use Rattle.std.specs.Prelude.{◌≡◌, ℕ, [], List, ◌++◌, None, option_and_then};
ghost use Rattle.witness_check.specs.Judging.{answer_of};
ghost use Rattle.witness_check.specs.TreeModel.Start.Sources.{ImageValue, TreeValue};
ghost use Rattle.witness_check.specs.TreeModel.Start.Memory.{start_code, start_items};
ghost use Rattle.witness_check.specs.TreeModel.Start.Machine.{flat_start_of, start_refusal as tables_refusal};
ghost use Rattle.witness_check.specs.Start.{Setting, check_of, judged, machine_of, program_of, start_refusal};
ghost use Rattle.witness_check.specs.Reader.{begun, fed, reader_after, setting_of};

/// However a text is cut, the reader ends where the whole text ends.
pub fn texts_in_pieces()
    ensures no_piece { (s : Setting) → begun s ≡ reader_after s [] }
    ensures piece { (s : Setting) (text piece : List ℕ) → fed (reader_after s text) piece ≡ reader_after s (text ++ piece) }
    ensures answer { (s : Setting) (text : List ℕ) → start_refusal s ≡ None → answer_of (reader_after s text).standing ≡ check_of s text }
{}

/// Of a tree and an image, the start that operations are judged from is that of the tables, and so is its refusal, but for
/// places in leaves, which aren't judged.
pub fn starts_are_the_tables()
    ensures code { (t : TreeValue) (i : ImageValue) → (program_of (setting_of t i)).code ≡ start_code i }
    ensures items { (t : TreeValue) (i : ImageValue) → (program_of (setting_of t i)).items ≡ start_items t i }
    ensures machine { (t : TreeValue) (i : ImageValue) → machine_of (setting_of t i) ≡ flat_start_of t i }
    ensures refusal { (t : TreeValue) (i : ImageValue) → start_refusal (setting_of t i) ≡ option_and_then judged (tables_refusal t i) }
{}
