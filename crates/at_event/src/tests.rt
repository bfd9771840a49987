//! The laws of whole events. Each call does nothing: its contract is proved.
use crate::laws;

#[test]
fn laws_hold() {
    laws::every_events();
    laws::events_are_calls();
    laws::joins_see_both();
    laws::one_view_is_linearized();
    laws::serial_lines_are_events();
    laws::worked_run();
}
