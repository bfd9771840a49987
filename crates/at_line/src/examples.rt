//! Lists of lines that are legal or not, each by the part that decides it.
ghost use Rattle.std.specs.Prelude.{◌≡◌, ◌↔◌, ℕ, List, true, false};
ghost use Rattle.std.specs.List.{list_all, list_any};
ghost use Rattle.at_value.specs.declared.operation.Op as op;
ghost use Rattle.at_line.specs.Lines.{IsHistory};
ghost use Rattle.at_model.specs.World.{opening};
ghost use Rattle.at_line.specs.Legal.{IsLinearized, AreWritesTrue, AreReadsTrue, AreRising, AreInTurn, AreLimitsMet};
ghost use Rattle.at_line.specs.Paths.{AreLocked, ArePathsAllowed, is_way_of_line};
ghost use Rattle.at_line.specs.declared.line.Line.{Line};
ghost use Rattle.at_line.specs.Kept.{IsKept};
ghost use Rattle.at_line.specs.KeptExamples.{opening_history, other_written, other_written_history, written_once_ended};
ghost use Rattle.at_line.specs.KeptExamples.{written_at_begin, written_at_begin_history, suspended_inside};
ghost use Rattle.at_line.specs.KeptExamples.{suspended_inside_history, two_sections, owner_written, other_class_set};
ghost use Rattle.at_line.specs.KeptExamples.{class_set_history, classes_written, classes_written_history};
ghost use Rattle.at_line.specs.KeptExamples.{value_written, value_written_history, end_alone, object_written};
ghost use Rattle.at_line.specs.KeptExamples.{object_written_history, dictionary_written, dictionary_written_history};
ghost use Rattle.at_line.specs.KeptExamples.{second_written, written_past_other_lines, named_meanwhile};
ghost use Rattle.at_line.specs.KeptExamples.{named_meanwhile_history, object_deleted, deleted_history};
ghost use Rattle.at_line.specs.KeptExamples.{dictionary_deleted, class_set, dictionary_taken, dictionary_given};
ghost use Rattle.at_line.specs.KeptExamples.{inner_written, outer_written};
ghost use Rattle.at_line.specs.LineExamples.{example_limits, legal_lines, legal_history, place_twice, place_left_out};
ghost use Rattle.at_line.specs.LineExamples.{other_object_made, refused_write_done, refused_write_history};
ghost use Rattle.at_line.specs.LineExamples.{read_past_the_end, begin_past_the_end, end_past_the_end};
ghost use Rattle.at_line.specs.LineExamples.{reply_of_the_place_before, suspended_in_main, suspended_in_finally};
ghost use Rattle.at_line.specs.LineExamples.{place_falls, write_at_a_place_read, thread_before_main};
ghost use Rattle.at_line.specs.LineExamples.{last_thread_before_main, finally_before_thread, finally_before_main};
ghost use Rattle.at_line.specs.LineExamples.{full_too_early, full_past_the_end, worn_too_early, worn_too_far};
ghost use Rattle.at_line.specs.LineExamples.{read_without_locks, ways_there, ways_not_there};

/// A list of lines of `main`, three threads and `finally` that is linearized, whose operations all went the locked
/// way. A section of a thread was suspended.
pub fn legal_example()
    ensures linearized { IsLinearized opening example_limits legal_history legal_lines }
    ensures locked { AreLocked legal_lines }
{}

/// Lists whose writes are no history: a place stands twice, or is left out.
pub fn lists_without_history()
    ensures twice { (history : List op.Op) → ¬ IsHistory place_twice history }
    ensures left_out { (history : List op.Op) → ¬ IsHistory place_left_out history }
{}

/// Lists with a history, in which a write has a wrong reply, a read a wrong reply or place, the begin or the end of a
/// section a wrong place, or the end of a section of `main` or `finally` a wrong reply.
pub fn lists_with_wrong_replies()
    ensures histories { IsHistory other_object_made legal_history
        × IsHistory refused_write_done refused_write_history
        × IsHistory read_past_the_end legal_history
        × IsHistory begin_past_the_end legal_history
        × IsHistory end_past_the_end legal_history
        × IsHistory reply_of_the_place_before legal_history
        × IsHistory suspended_in_main legal_history
        × IsHistory suspended_in_finally legal_history }
    ensures made { ¬ AreWritesTrue opening legal_history other_object_made }
    ensures done { ¬ AreWritesTrue opening refused_write_history refused_write_done }
    ensures past { ¬ AreReadsTrue opening legal_history read_past_the_end }
    ensures begin_past { ¬ AreReadsTrue opening legal_history begin_past_the_end }
    ensures end_past { ¬ AreReadsTrue opening legal_history end_past_the_end }
    ensures before { ¬ AreReadsTrue opening legal_history reply_of_the_place_before }
    ensures suspended { ¬ AreReadsTrue opening legal_history suspended_in_main }
    ensures suspended_last { ¬ AreReadsTrue opening legal_history suspended_in_finally }
{}

/// Lists in which places fall, or threads are out of turn.
pub fn lists_with_wrong_places()
    ensures falls { ¬ AreRising place_falls }
    ensures read_before { ¬ AreRising write_at_a_place_read }
    ensures thread { ¬ AreInTurn thread_before_main }
    ensures last_thread { ¬ AreInTurn last_thread_before_main }
    ensures finally { ¬ AreInTurn finally_before_thread }
    ensures finally_alone { ¬ AreInTurn finally_before_main }
{}

/// Lists in which a limit is named that wasn't met, or an operation went the fast way.
pub fn lists_with_wrong_limits_and_paths()
    ensures full_early { ¬ AreLimitsMet example_limits full_too_early }
    ensures full_far { ¬ AreLimitsMet example_limits full_past_the_end }
    ensures worn_early { ¬ AreLimitsMet example_limits worn_too_early }
    ensures worn_far { ¬ AreLimitsMet example_limits worn_too_far }
    ensures path { ¬ AreLocked read_without_locks }
{}

/// The ways that each operation goes where reads and writes go without locks, and those that it doesn't go there: each
/// operation with each path.
pub fn ways_of_operations()
    ensures there { list_all (λ w. is_way_of_line w.0 w.1) ways_there ≡ true }
    ensures not_there { list_any (λ w. is_way_of_line w.0 w.1) ways_not_there ≡ false }
{}

/// The ways of today, as long as no operation goes without locks: the locked one alone. These clauses go when the
/// choice in `is_allowed_way` changes.
pub fn ways_of_today()
    ensures today { (lines : List Line) → ArePathsAllowed lines ↔ AreLocked lines }
    ensures fast { ¬ ArePathsAllowed read_without_locks }
{}

/// Lists with sections that are kept, while another thread writes another object, or an object whose section has
/// ended, or begins at the place of the write, or was suspended; while a thread writes the object of its own section;
/// and while no write touches a row of the section's objects, although one changes what an object of it reads.
pub fn kept_examples()
    ensures histories { IsHistory other_written other_written_history
        × IsHistory written_once_ended other_written_history
        × IsHistory written_at_begin written_at_begin_history
        × IsHistory suspended_inside suspended_inside_history
        × IsHistory two_sections other_written_history
        × IsHistory owner_written object_written_history
        × IsHistory other_class_set class_set_history }
    ensures histories_more { IsHistory classes_written classes_written_history
        × IsHistory value_written value_written_history
        × IsHistory end_alone other_written_history }
    ensures other { IsKept opening other_written_history other_written }
    ensures ended { IsKept opening other_written_history written_once_ended }
    ensures at_begin { IsKept opening written_at_begin_history written_at_begin }
    ensures suspended { IsKept opening suspended_inside_history suspended_inside }
    ensures threads { IsKept opening other_written_history two_sections }
    ensures owner { IsKept opening object_written_history owner_written }
    ensures class { IsKept opening class_set_history other_class_set }
    ensures classes { IsKept opening classes_written_history classes_written }
    ensures value { IsKept opening value_written_history value_written }
    ensures alone { IsKept opening other_written_history end_alone }
{}

/// Lists with a section that replied that it was kept, while another thread wrote its object: by each operation that
/// touches rows, the object itself or the dictionary that it names, the second object of two, the object of the
/// section that an end belongs to among two that nest.
pub fn lists_with_broken_sections()
    ensures histories { IsHistory object_written object_written_history
        × IsHistory dictionary_written dictionary_written_history
        × IsHistory inner_written dictionary_written_history
        × IsHistory outer_written object_written_history }
    ensures histories_more { IsHistory second_written other_written_history
        × IsHistory written_past_other_lines other_written_history
        × IsHistory named_meanwhile named_meanwhile_history
        × IsHistory object_deleted deleted_history
        × IsHistory dictionary_deleted deleted_history
        × IsHistory class_set class_set_history
        × IsHistory dictionary_taken opening_history
        × IsHistory dictionary_given opening_history }
    ensures object { ¬ IsKept opening object_written_history object_written }
    ensures dictionary { ¬ IsKept opening dictionary_written_history dictionary_written }
    ensures second { ¬ IsKept opening other_written_history second_written }
    ensures past_other_lines { ¬ IsKept opening other_written_history written_past_other_lines }
    ensures named_meanwhile { ¬ IsKept opening named_meanwhile_history named_meanwhile }
    ensures deleted { ¬ IsKept opening deleted_history object_deleted }
    ensures dictionary_deleted { ¬ IsKept opening deleted_history dictionary_deleted }
    ensures class { ¬ IsKept opening class_set_history class_set }
    ensures taken { ¬ IsKept opening opening_history dictionary_taken }
    ensures given { ¬ IsKept opening opening_history dictionary_given }
    ensures inner { ¬ IsKept opening dictionary_written_history inner_written }
    ensures outer { ¬ IsKept opening object_written_history outer_written }
{}
