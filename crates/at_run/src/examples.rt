//! Runs of a script with two threads, and lists of lines that are no run of it.
ghost use Rattle.at_value.specs.ProgramLimits.{program_limits};
ghost use Rattle.at_model.specs.Final.{final_of};
ghost use Rattle.at_model.specs.History.{replay};
ghost use Rattle.at_line.specs.Legal.{IsLinearized};
ghost use Rattle.at_line.specs.Kept.{IsKept};
ghost use Rattle.at_thread.specs.Runs.{IsRunOf};
ghost use Rattle.at_run.specs.Opening.{opening_of};
ghost use Rattle.at_run.specs.PlainRun.{IsPlainRun};
ghost use Rattle.at_run.specs.RunExamples.{example_script, example_history, plain_lines, interleaved_lines};
ghost use Rattle.at_run.specs.RunExamples.{variable_forgotten, variable_forgotten_at_last, variable_shared};
ghost use Rattle.at_run.specs.RunExamples.{threads_swapped, finally_left_out, numbered_from_zero, thread_added};
ghost use Rattle.at_run.specs.RunExamples.{threads_out_of_order};

/// A run in which the second thread runs once the first has ended.
pub fn plain_example()
    ensures { IsPlainRun example_script plain_lines (final_of (replay (opening_of example_script) example_history)) }
{}

/// A run in which the threads interleave: the second writes what the first reads at its end.
pub fn interleaved_example()
    ensures runs { IsRunOf example_script interleaved_lines }
    ensures linearized { IsLinearized (opening_of example_script) program_limits example_history interleaved_lines }
    ensures kept { IsKept (opening_of example_script) example_history interleaved_lines }
{}

/// Lists in which the threads, or `finally` alone, begin without the variable that `main` has bound, or a thread
/// begins with one that another thread has bound.
pub fn lists_with_wrong_variables()
    ensures threads { ¬ IsRunOf example_script variable_forgotten }
    ensures finally { ¬ IsRunOf example_script variable_forgotten_at_last }
    ensures shared { ¬ IsRunOf example_script variable_shared }
{}

/// Lists in which the threads execute the blocks of each other, `finally` has no line, or a thread is there that the
/// script hasn't.
pub fn lists_with_wrong_blocks()
    ensures swapped { ¬ IsRunOf example_script threads_swapped }
    ensures left_out { ¬ IsRunOf example_script finally_left_out }
    ensures added { ¬ IsRunOf example_script thread_added }
{}

/// Lists in which a thread's lines are numbered from 0, or stand before those of the thread before it.
pub fn lists_with_wrong_numbers()
    ensures numbers { ¬ IsRunOf example_script numbered_from_zero }
    ensures order { ¬ IsRunOf example_script threads_out_of_order }
{}
