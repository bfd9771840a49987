//! The laws of orders and of worlds. Each call does nothing: its contract is proved.
use crate::laws;

#[test]
fn laws_hold() {
    laws::order_laws();
    laws::step_keeps_well_formed();
    laws::replay_is_well_formed();
    laws::only_writes_change_worlds();
}
