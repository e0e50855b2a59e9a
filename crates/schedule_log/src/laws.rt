//! What holds of every way to cut a text, as theorems: each clause is one, and there is nothing to run.

ghost use Rattle.std.specs.Prelude.{◌≡◌, ℕ, [], List, ◌++◌, Ok, Err};
ghost use Rattle.text_model.specs.Schedule.{ShapeView, schedule_of};
ghost use Rattle.text_model.specs.declared.ScheduleRefusal.{ScheduleRefusal};
ghost use Rattle.schedule_log.specs.Pieces.{reader_after, turns_of};
ghost use Rattle.schedule_log.specs.Reader.{begun_behind, fed, finish_of, given};

/// However a text is cut, and however many turns were made before it, the pieces give its turns, and the reader ends where the
/// whole text ends.
pub fn texts_in_pieces()
    ensures no_piece { (shape : ShapeView) (made : ℕ) → begun_behind made ≡ reader_after shape made [] }
    ensures reader { (shape : ShapeView) (made : ℕ) (text piece : List ℕ)
        → fed shape (reader_after shape made text) piece ≡ reader_after shape made (text ++ piece) }
    ensures turns { (shape : ShapeView) (made : ℕ) (text piece : List ℕ)
        → turns_of shape made text ++ (given shape (reader_after shape made text) piece).turns ≡ turns_of shape made (text ++ piece) }

    // The end of the text accepts it with its turns, or refuses it for what the whole text is refused for.
    ensures accepted { (shape : ShapeView) (made : ℕ) (text : List ℕ) → finish_of (reader_after shape made text).standing ≡ Ok tt
        → schedule_of shape made text ≡ Ok (turns_of shape made text) }
    ensures refused { (shape : ShapeView) (made : ℕ) (text : List ℕ) (line : ℕ) (refusal : ScheduleRefusal)
        → finish_of (reader_after shape made text).standing ≡ Err (line, refusal)
        → schedule_of shape made text ≡ Err (line, refusal) }
{}
