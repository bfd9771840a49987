//! A pool of three tags, and the numbers of passes and objects.

use crate::{KeptBy, LimboRow, TagCounts, Types, laws};
use std::process::Abort;
use std::test::Fail;

#[test]
fn tags_are_given_dropped_and_given_again(rt: HostRuntime) -> Result<(), Fail> {
    let mut types = Types::new(rt.alloc(), 3)?;
    assert_eq!(rt; types.next_tag(), Some(1));
    assert_eq!(rt; types.next_tag(), Some(2));
    types.to_limbo(2);
    types.to_limbo(1);
    let dropped = LimboRow {
        tag: 2,
        goal: None,
        kept_by: KeptBy::New,
    };
    assert_eq!(rt; types.limbo_at(0), Some(dropped));
    types.set_goal(1, 7);
    types.set_kept(1, KeptBy::Pass(3, 6));
    let kept = LimboRow {
        tag: 1,
        goal: Some(7),
        kept_by: KeptBy::Pass(3, 6),
    };
    assert_eq!(rt; types.limbo_at(1), Some(kept));
    assert_eq!(rt; types.limbo_at(2), None);
    types.free_at(1);
    types.free_at(0);
    let counts = TagCounts {
        given: 2,
        freed: 2,
        free: 3,
        limbo: 0,
    };
    assert_eq!(rt; types.counts(), counts);
    assert_eq!(rt; types.next_tag(), Some(3));
    assert_eq!(rt; types.next_tag(), Some(1));
    assert_eq!(rt; types.next_tag(), Some(2));
    assert_eq!(rt; types.next_tag(), None);
    Ok(())
}

fn may_cross_threads<T: Send + Sync>(_value: &T) {}

#[test]
fn numbers_and_objects_are_counted(rt: HostRuntime) -> Result<(), Fail> {
    let mut types = Types::new(rt.alloc(), 0)?;
    may_cross_threads(&types);
    types.invariant();
    assert_eq!(rt; types.next_tag(), None);
    for q in 0..63u8 {
        assert_eq!(rt; types.take_number(), Some(q));
    }
    if let Some(q) = types.take_number() {
        types.free_number(q);
    }
    assert_eq!(rt; types.take_number(), Some(63));
    assert_eq!(rt; types.take_number(), None);
    assert_eq!(rt; types.objects(), 0);
    assert_eq!(rt; types.add_object().number(), 0);
    assert_eq!(rt; types.objects(), 1);
    Ok(())
}

#[test]
fn laws_hold() {
    laws::order_law();
    laws::standing_laws();
    laws::run_law();
}
