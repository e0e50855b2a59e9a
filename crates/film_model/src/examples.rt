//! Worked examples of films, as theorems: each clause is one, and there is nothing to run.

ghost use Rattle.film_model.specs.Examples.{IsFilmed, HasKeysOnce, no_turns, one_read, reservation, joined_reads};
ghost use Rattle.film_model.specs.Examples.{parking, full_buffer, stale_load, output};

/// Films of small runs.
pub fn small_films()
    ensures before_any_turn { IsFilmed no_turns }
    ensures one_read { IsFilmed one_read }
    ensures reservation { IsFilmed reservation }
    ensures joined_reads { IsFilmed joined_reads }
    ensures parking { IsFilmed parking }
    ensures full_buffer { IsFilmed full_buffer }
    ensures stale_load { IsFilmed stale_load }
    ensures one_byte_of_output { IsFilmed output }

    // Each part is told by a key of its own.
    ensures keys { HasKeysOnce parking }
{}
