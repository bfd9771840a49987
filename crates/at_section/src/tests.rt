//! Sections on worlds of their own.
ghost use Rattle.std.specs.Prelude.{◌≡◌, IfOk};
ghost use Rattle.at_core.specs.Passes.{IsOf};
ghost use Rattle.at_section.specs.Surfaces.{IsOutside, Surface};

use crate::{How, begin, begin_types, end, end_types, laws};
use at_core::note::MOST_NOTES;
use at_core::{Lock, OpenFault, Pass, World};
use at_lock::{NoPass, Taken, give, split, try_take};
use at_value::{Limits, Obj};
use std::alloc::Global;
use std::sync::Wait;
use std::thread;
use std::thread::Threads;

#[test]
fn laws_hold() {
    laws::kept_sections();
    laws::alone_sections();
    laws::outside_sections();
    laws::kept_lines();
    laws::quiet_sections();
}

/// A world, and its first pass.
#[tactic(auto, using(crate::proofs::Outside::outside))]
fn open(alloc: Global) -> Result<(World, Pass), OpenFault>
    ensures { IfOk result (λ r. IsOf r.1 r.0 × IsOutside r.1 × Surface r.1) }
{
    World::open(alloc, Limits::program())
}

/// A second pass.
fn second_of<R: Wait>(world: &World, rt: &R, pass: &mut Pass) -> Result<Pass, NoPass>
    requires of { IsOf pass.old world.now }
    requires outside { IsOutside pass.old }
    ensures first { IsOf pass.new world.now × Surface pass.new }
    ensures second { IfOk result (λ new. IsOf new world.now × Surface new) }
{
    split(world, rt, pass)
}

/// Begins a section, unless the pass is in twenty.
fn enter<R: Wait>(world: &World, rt: &R, pass: &mut Pass, a: u16, b: Option<u16>) -> bool
    requires of { IsOf pass.old world.now }
    requires surface { Surface pass.old }
    ensures { IsOf pass.new world.now × Surface pass.new }
{
    if usize::from(pass.sections()) >= MOST_NOTES {
        return false;
    }
    let Some(a) = Obj::new(a) else {
        return false;
    };
    begin(world, rt, pass, a, row(b));
    true
}

fn row(number: Option<u16>) -> Option<Obj> {
    Obj::new(number?)
}

/// Ends the innermost section, where there is one.
fn leave<R: Wait>(world: &World, rt: &R, pass: &mut Pass) -> Option<How>
    requires of { IsOf pass.old world.now }
    requires surface { Surface pass.old }
    ensures { IsOf pass.new world.now × Surface pass.new }
{
    if pass.sections() == 0 {
        return None;
    }
    Some(end(world, rt, pass).how)
}

/// Who holds a lock, if anybody does.
fn holder(world: &World, pass: &mut Pass, lock: &Lock) -> Option<u8>
    requires of { IsOf pass.old world.now }
    requires surface { Surface pass.old }
    ensures { IsOf pass.new world.now × Surface pass.new }
{
    if pass.has_lock(lock) {
        return Some(pass.number());
    }
    if usize::from(pass.sections()) > MOST_NOTES {
        return Some(pass.number());
    }
    match try_take(world, pass, *lock) {
        Taken::Got => {
            give(world, pass, *lock);
            None
        }
        Taken::Held(number) => Some(number),
    }
}

/// Whether another pass holds the lock of the types, and which of the first three rows.
fn found(world: &World, pass: &mut Pass) -> [bool; 4]
    requires of { IsOf pass.old world.now }
    requires surface { Surface pass.old }
    ensures { IsOf pass.new world.now × Surface pass.new }
{
    let mut held = [false; 4];
    held[0] = holder(world, pass, &Lock::Types).is_some();
    for i in 1..4u16 {
        if let Some(o) = Obj::new(i) {
            held[usize::from(i)] = holder(world, pass, &Lock::Row(o)).is_some();
        }
    }
    held
}

/// What a pass is in a section over, and what another finds then.
#[derive(Drop)]
struct Overlap {
    a: Option<u16>,
    b: Option<u16>,
    found: [bool; 4],
}

/// Whether a second pass finds this while the first is in such a section, and nothing after it, and the section is kept.
fn holds_rows<R: Wait>(
    world: &World,
    rt: &R,
    first: &mut Pass,
    second: &mut Pass,
    overlap: &Overlap,
) -> bool
    requires of { IsOf first.old world.now × IsOf second.old world.now }
    requires surface { Surface first.old × Surface second.old }
    ensures of { IsOf first.new world.now × IsOf second.new world.now }
    ensures surface { Surface first.new × Surface second.new }
{
    enter(world, rt, first, overlap.a.unwrap_or(4_096), overlap.b);
    let within = found(world, second);
    let how = leave(world, rt, first);
    let after = found(world, second);
    within == overlap.found && how == Some(How::Kept) && after == [false; 4]
}

/// The same of sections with the lock of the types.
fn holds_types<R: Wait>(
    world: &World,
    rt: &R,
    first: &mut Pass,
    second: &mut Pass,
    overlap: &Overlap,
) -> bool
    requires of { IsOf first.old world.now × IsOf second.old world.now }
    requires surface { Surface first.old × Surface second.old }
    ensures of { IsOf first.new world.now × IsOf second.new world.now }
    ensures surface { Surface first.new × Surface second.new }
{
    if usize::from(first.sections()) >= MOST_NOTES {
        return false;
    }
    let types = begin_types(world, rt, first, row(overlap.a), row(overlap.b));
    let within = found(world, second);
    let how = end_types(world, rt, first, types).how;
    within == overlap.found && how == How::Kept
}

/// Goes over the table of overlaps, and gives how many of its rows are as they should be.
fn rows_right<R: Wait>(
    world: &World,
    rt: &R,
    first: &mut Pass,
    second: &mut Pass,
    table: &[Overlap],
) -> u8
    requires of { IsOf first.old world.now × IsOf second.old world.now }
    requires surface { Surface first.old × Surface second.old }
    ensures of { IsOf first.new world.now × IsOf second.new world.now }
    ensures surface { Surface first.new × Surface second.new }
{
    let mut right = 0;
    for overlap in table {
        if holds_rows(world, rt, first, second, overlap) && right < 100 {
            right += 1;
        }
    }
    right
}

/// So with the lock of the types.
fn types_right<R: Wait>(
    world: &World,
    rt: &R,
    first: &mut Pass,
    second: &mut Pass,
    table: &[Overlap],
) -> u8
    requires of { IsOf first.old world.now × IsOf second.old world.now }
    requires surface { Surface first.old × Surface second.old }
{
    let mut right = 0;
    for overlap in table {
        if holds_types(world, rt, first, second, overlap) && right < 100 {
            right += 1;
        }
    }
    right
}

/// A row of the table: whether the lock of the types is found held, and each of the first three rows.
fn finds(a: Option<u16>, b: Option<u16>, found: [bool; 4]) -> Overlap {
    Overlap { a, b, found }
}

#[test]
fn a_section_holds_its_locks(rt: HostRuntime) -> Result<(), OpenFault> {
    let (world, mut first) = open(rt.alloc())?;
    let Ok(mut second) = second_of(&world, &rt, &mut first) else {
        return Ok(());
    };
    let rows = [
        finds(Some(1), None, [false, true, false, false]),
        finds(Some(2), Some(2), [false, false, true, false]),
        finds(Some(1), Some(3), [false, true, false, true]),
        finds(Some(3), Some(1), [false, true, false, true]),
        finds(Some(3), Some(2), [false, false, true, true]),
    ];
    let types = [
        finds(None, None, [true, false, false, false]),
        finds(Some(2), None, [true, false, true, false]),
        finds(None, Some(3), [true, false, false, true]),
        finds(Some(2), Some(1), [true, true, true, false]),
        finds(Some(1), Some(1), [true, true, false, false]),
    ];
    assert_eq!(rt; rows_right(&world, &rt, &mut first, &mut second, &rows), 5);
    assert_eq!(rt;
        types_right(&world, &rt, &mut first, &mut second, &types),
        5
    );
    Ok(())
}

/// Begins so many sections of neighbouring rows within each other, and tries one more; then ends them. Gives whether the one
/// more began, and how many ended kept.
fn nested<R: Wait>(world: &World, rt: &R, pass: &mut Pass, count: u16) -> (bool, u16)
    requires of { IsOf pass.old world.now }
    requires surface { Surface pass.old }
    ensures { IsOf pass.new world.now × Surface pass.new }
{
    for i in 0..count {
        enter(world, rt, pass, i / 2 % 4_000, Some(i % 3));
    }
    let more = enter(world, rt, pass, 0, None);
    let mut kept = 0;
    for _ in 0..count {
        if leave(world, rt, pass) == Some(How::Kept) && kept < count {
            kept += 1;
        }
    }
    (more, kept)
}

#[test]
fn twenty_sections_nest(rt: HostRuntime) -> Result<(), OpenFault> {
    let (world, mut pass) = open(rt.alloc())?;
    assert_eq!(rt; nested(&world, &rt, &mut pass, 20), (false, 20));
    assert_eq!(rt; pass.sections(), 0);
    Ok(())
}

/// In a section of row 1, begins one of row 2 within it, and gives how each ended, the inner first.
fn inner<R: Wait>(world: &World, rt: &R, pass: &mut Pass) -> (Option<How>, Option<How>)
    requires of { IsOf pass.old world.now }
    requires surface { Surface pass.old }
{
    enter(world, rt, pass, 2, None);
    let first = leave(world, rt, pass);
    (first, leave(world, rt, pass))
}

/// In a section of row 2, waits until row 1 is free, and gives how the section ended.
fn once_free<R: Wait>(world: &World, rt: &R, pass: &mut Pass, lock: &Lock) -> Option<How>
    requires of { IsOf pass.old world.now }
    requires surface { Surface pass.old }
{
    for _ in rt.forever() {
        if holder(world, pass, lock).is_none() {
            return leave(world, rt, pass);
        }
    }
    unreachable!()
}

/// The first pass is in a section of row 1 and comes to need row 2, which the second holds until row 1 is free.
fn suspended<R: Threads + Wait + Sync>(
    world: &World,
    rt: &R,
    first: &mut Pass,
    second: &mut Pass,
    lock: &Lock,
) -> ((Option<How>, Option<How>), Option<How>)
    requires of { IsOf first.old world.now × IsOf second.old world.now }
    requires surface { Surface first.old × Surface second.old }
{
    enter(world, rt, first, 1, None);
    enter(world, rt, second, 2, None);
    thread::join(
        rt,
        ||
            requires { IsOf first.now world.now × Surface first.now }
        { inner(world, rt, first) },
        ||
            requires { IsOf second.now world.now × Surface second.now }
        { once_free(world, rt, second, lock) },
    )
}

#[test]
fn a_section_is_suspended(rt: HostRuntime) -> Result<(), OpenFault> {
    let (world, mut first) = open(rt.alloc())?;
    let Ok(mut second) = second_of(&world, &rt, &mut first) else {
        return Ok(());
    };
    let lock = Lock::Row(Obj::new(1).unwrap());
    let (outer, other) = suspended(&world, &rt, &mut first, &mut second, &lock);
    assert_eq!(rt; outer, (Some(How::Kept), Some(How::Suspended(1))));
    assert_eq!(rt; other, Some(How::Kept));
    Ok(())
}

/// Takes two rows one within the other so many times, and gives how often both sections ended.
fn cross<R: Wait>(world: &World, rt: &R, pass: &mut Pass, outer: u16, inner: u16) -> u32
    requires of { IsOf pass.old world.now }
    requires surface { Surface pass.old }
{
    let mut both = 0;
    for _ in 0..10_000u32 {
        enter(world, rt, pass, outer, None);
        enter(world, rt, pass, inner, None);
        let ended = leave(world, rt, pass).is_some();
        if leave(world, rt, pass).is_some() && ended && both < 10_000 {
            both += 1;
        }
    }
    both
}

/// Two threads take the same two rows in opposite orders.
fn crossing<R: Threads + Wait + Sync>(
    world: &World,
    rt: &R,
    first: &mut Pass,
    second: &mut Pass,
) -> (u32, u32)
    requires of { IsOf first.old world.now × IsOf second.old world.now }
    requires surface { Surface first.old × Surface second.old }
{
    thread::join(
        rt,
        ||
            requires { IsOf first.now world.now × Surface first.now }
        { cross(world, rt, first, 1, 2) },
        ||
            requires { IsOf second.now world.now × Surface second.now }
        { cross(world, rt, second, 2, 1) },
    )
}

#[test]
fn threads_that_cross_their_rows_end(rt: HostRuntime) -> Result<(), OpenFault> {
    let (world, mut first) = open(rt.alloc())?;
    let Ok(mut second) = second_of(&world, &rt, &mut first) else {
        return Ok(());
    };
    let ended = crossing(&world, &rt, &mut first, &mut second);
    assert_eq!(rt; ended, (10_000, 10_000));
    Ok(())
}
