//! What holds of all schedules, as theorems: each clause is one, and there is nothing to run.

ghost use Rattle.std.specs.Prelude.{◌≡◌, ℕ, ◌+◌, ◌<◌, ◌≤◌, List, [], ◌∷◌, ◌++◌, length, filter, All};
ghost use Rattle.text_model.specs.DdmTypes.declared.turns.Turn.{Turn};
ghost use Rattle.text_model.specs.Schedule.{ShapeView, meaning_of, Reading, in_line, refused_at, nothing_but};
ghost use Rattle.text_model.specs.Schedule.{schedule_of, schedule_text, reading_on, held_of, resumed};
ghost use Rattle.text_model.specs.Schedule.{reading_of_line};
ghost use Rattle.text_model.specs.DdmTypes.declared.operations.Op.{Op};
ghost use Rattle.text_model.specs.FlatModel.Legal.{is_of};
ghost use Rattle.text_model.specs.Report.{put_texts};
ghost use Rattle.text_model.specs.ReadBack.{IsTurnOf, IsSmallShape, IsReadBack, GivesTurnsOf};
ghost use Rattle.text_model.specs.Lines.{Lacks};

use crate::ScheduleRefusal;

/// The text of turns of a small tree gives those turns.
pub fn written_schedules()
    ensures read_back { (shape : ShapeView) (made : ℕ) (turns : List Turn) → IsSmallShape shape
        → All (IsTurnOf shape) turns → made + length turns ≤ 1048576
        → IsReadBack shape made turns }
{}

/// A text that gives turns is the text of those turns: there is one spelling.
pub fn accepted_schedules()
    ensures one_spelling { (shape : ShapeView) (made : ℕ) (text : List ℕ) (turns : List Turn)
        → schedule_of shape made text ≡ Ok turns → text ≡ schedule_text turns }

    // Whether a text is refused or not, its turns so far are turns of the tree, and not too many.
    ensures turns { (shape : ShapeView) (line made : ℕ) (text : List ℕ) → made ≤ 1048576
        → GivesTurnsOf shape made (reading_on shape line made text).turns }
{}

/// A text is read line by line.
pub fn schedule_lines()
    ensures open { (shape : ShapeView) (line made : ℕ) (text : List ℕ) → Lacks 10 text
        → length text ≤ 24 → reading_on shape line made text ≡ nothing_but (in_line line) }
    ensures long { (shape : ShapeView) (line made : ℕ) (text more : List ℕ) → Lacks 10 text
        → 24 < length text
        → reading_on shape line made (text ++ more) ≡ nothing_but (refused_at line ScheduleRefusal.BadTurn) }
    ensures whole { (shape : ShapeView) (line made : ℕ) (text more : List ℕ) → Lacks 10 text
        → reading_on shape line made (text ++ 10 ∷ more) ≡ reading_of_line shape line made (meaning_of text) more }
{}

/// A text is read part by part: a reader needs the turns so far, how far it has come, and at most 24 bytes of the last line.
pub fn schedule_parts()
    ensures resumed { (shape : ShapeView) (line made : ℕ) (text more : List ℕ)
        → reading_on shape line made (text ++ more)
        ≡ (let reading = reading_on shape line made text in
        resumed shape made (held_of text) more reading.turns reading.standing) }
    ensures held { (shape : ShapeView) (line made current : ℕ) (text : List ℕ)
        → (reading_on shape line made text).standing ≡ in_line current
        → length (held_of text) ≤ 24 }
    ensures no_line_feed { (text : List ℕ) → Lacks 10 (held_of text) }
{}

/// What a hart puts out is made of its own operations, in their order, and of no others.
pub fn same_output()
    ensures { (hart : ℕ) (ops others : List Op) → filter (is_of hart) ops ≡ filter (is_of hart) others
        → put_texts hart ops ≡ put_texts hart others }
{}
