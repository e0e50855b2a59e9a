//! Worked examples of the texts, as theorems: each clause is one, and there is nothing to run.

ghost use Rattle.std.specs.Prelude.{◌≡◌, [], ◌∷◌, codes};
ghost use Rattle.text_model.specs.Schedule.{schedule_text};
ghost use Rattle.text_model.specs.Trace.{trace_text};
ghost use Rattle.text_model.specs.Report.{report_of, summary_of, turns_line, out_line, bus_line, item_line, op_line};
ghost use Rattle.text_model.specs.Faults.{usage_fault, image_fault, tree_fault, tree_key_fault, unknown_key_fault};
ghost use Rattle.text_model.specs.Faults.{schedule_fault, read_fault};
ghost use Rattle.text_model.specs.Examples.{IsRefused, IsRefusedAfter, IsRefusedWhereCut, Gives, eight_turns};
ghost use Rattle.text_model.specs.Examples.{eight_turns_text, store_and_load, store_and_load_report};
ghost use Rattle.text_model.specs.Examples.{store_and_load_summary, no_turns, no_turns_report, output_ops};
ghost use Rattle.text_model.specs.Examples.{one_read_turns, one_read_answers, one_read_trace, one_read_counts};
ghost use Rattle.text_model.specs.Examples.{one_read_traffic, one_read_item, first_load, other_turns, other_answers};
ghost use Rattle.text_model.specs.Examples.{other_trace, deep_op, parked_item};

use crate::ScheduleRefusal;

/// Small schedules for a tree of one leaf, and what each is refused for.
pub fn refused_schedules()
    ensures unfinished { IsRefused (codes "h 0 0\n") 2 ScheduleRefusal.NoEnd }
    ensures cut { IsRefusedWhereCut }
    ensures no_such_hart { IsRefused (codes "h 1 0\nend\n") 1 ScheduleRefusal.NoSuchHart }
    ensures no_such_bus { IsRefused (codes "g 4294967295 d\nend\n") 1 ScheduleRefusal.NoSuchBus }
    ensures no_such_child { IsRefused (codes "g 0 q 1\nend\n") 1 ScheduleRefusal.NoSuchChild }
    ensures two_spellings { IsRefused (codes "h 0 00\nend\n") 1 ScheduleRefusal.BadTurn }
    ensures victim_too_large { IsRefused (codes "h 0 256\nend\n") 1 ScheduleRefusal.BadTurn }
    ensures two_spaces { IsRefused (codes "h  0 0\nend\n") 1 ScheduleRefusal.BadTurn }
    ensures carriage_return { IsRefused (codes "h 0 0\r\nend\n") 1 ScheduleRefusal.BadTurn }

    // A line of 24 bytes is read; one of 25 isn't.
    ensures line_of_24_bytes { IsRefused (codes "g 999999999 q 4294967295\nend\n") 1 ScheduleRefusal.NoSuchBus }
    ensures line_of_25_bytes { IsRefused (codes "g 1000000000 q 4294967295\nend\n") 1 ScheduleRefusal.BadTurn }

    ensures goes_on_after_end { IsRefused (codes "end\nx") 2 ScheduleRefusal.AfterEnd }
    ensures one_turn_too_many { IsRefusedAfter 1048575 (codes "h 0 0\nh 0 0\nend\n") 2 ScheduleRefusal.TooManyTurns }
{}

/// A schedule of eight turns.
pub fn accepted_schedule()
    ensures read { Gives eight_turns_text eight_turns }
    ensures written { schedule_text eight_turns ≡ eight_turns_text }
{}

/// The reports of a machine of one leaf that stores a word and loads it back, after its run and before any turn.
pub fn small_reports()
    ensures store_and_load_back { report_of store_and_load ≡ store_and_load_report }
    ensures in_short { summary_of store_and_load ≡ store_and_load_summary }
    ensures before_any_turn { report_of no_turns ≡ no_turns_report }
{}

/// Lines of reports.
pub fn report_lines()
    ensures turns { turns_line one_read_counts ≡ codes "turns 5 retired 2 granted 2 busy 0\n" }
    ensures one_byte_of_output { out_line 1 output_ops ≡ codes "out 1 48\n" }
    ensures no_output { out_line 0 output_ops ≡ codes "out 0 -\n" }
    ensures bus { bus_line 0 one_read_traffic ≡ codes "bus 0 read 1 data 1 erase 0 exclusive 0 out 0 inject 0\n" }
    ensures item { item_line one_read_item ≡ codes "item 1 00020000 00000005 00000000 00000000 00000000 leaf 0 way 1 SS\n" }
    ensures parked_item { item_line parked_item ≡ codes "item 1 00020000 00000005 00000000 00000000 00000000 bus 1 parking 0 --\n" }
    ensures op { op_line 1 first_load ≡ codes "op 0 2.0.1 00010004 load 00020000 00000005\n" }
    ensures deep_key { op_line 4 deep_op ≡ codes "op 0 1.2.3.4.5.6.7.8.9 00010000 plain\n" }
{}

/// The trace of one read, and of turns out of other runs.
pub fn small_traces()
    ensures one_read { trace_text one_read_turns one_read_answers ≡ one_read_trace }
    ensures other_answers { trace_text other_turns other_answers ≡ other_trace }
{}

/// Lines of faults.
pub fn fault_lines()
    ensures usage { usage_fault 3 ≡ codes "ddm: usage: word 3\n" }
    ensures image { image_fault (codes "SegmentsOverlap") (0 ∷ 1 ∷ []) ≡ codes "ddm: image: segments overlap 0 1\n" }
    ensures tree { tree_fault (codes "BadShape") (1 ∷ []) ≡ codes "ddm: tree: bad shape 1\n" }
    ensures tree_key { tree_key_fault (codes "OutOfRange") (codes "ways") ≡ codes "ddm: tree: out of range ways\n" }
    ensures unknown_key { unknown_key_fault (codes "a cache") ≡ codes "ddm: tree: unknown key a?cache\n" }
    ensures schedule { schedule_fault 2 ScheduleRefusal.NoEnd ≡ codes "ddm: schedule line 2: no end\n" }
    ensures unreadable { read_fault (codes "schedule") ≡ codes "ddm: cannot read the schedule\n" }
{}
