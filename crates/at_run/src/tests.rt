//! The laws of runs, and runs that are written out. Each call does nothing: its contract is proved.
use crate::{examples, laws};

#[test]
fn laws_hold() {
    laws::serial_runs_are_events();
    laws::serial_runs_are_linearized();
    laws::plain_runs_are_one();
    laws::legal_runs_of_one_block_are_serial();
}

#[test]
fn each_list_is_a_run_or_not() {
    examples::plain_example();
    examples::interleaved_example();
    examples::lists_with_wrong_variables();
    examples::lists_with_wrong_blocks();
    examples::lists_with_wrong_numbers();
}
