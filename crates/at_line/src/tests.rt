//! The laws of histories, and the lists of lines that are legal or not. Each call does nothing: its contract is proved.
use crate::{examples, laws};

#[test]
fn laws_of_histories_hold() {
    laws::histories_are_unique();
    laws::legal_histories_are_proper();
    laws::serial_lines_are_linearized();
    laws::one_thread_is_serial();
    laws::one_thread_is_kept();
    laws::turns_are_by_line();
}

#[test]
fn each_list_is_judged_by_its_part() {
    examples::legal_example();
    examples::lists_without_history();
    examples::lists_with_wrong_replies();
    examples::lists_with_wrong_places();
    examples::lists_with_wrong_limits_and_paths();
    examples::ways_of_operations();
    examples::ways_of_today();
    examples::kept_examples();
    examples::lists_with_broken_sections();
}
