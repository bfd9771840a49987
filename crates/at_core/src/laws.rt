//! What is true of every run of the core. Each function does nothing: its contract is the law.
ghost use Rattle.at_core.specs.Backed.{BackingIsJoined, BackingStays, ClassIsBacked, NothingBacks};
ghost use Rattle.at_core.specs.Runs.{EveryRunHolds, OpeningHolds};
ghost use Rattle.at_core.specs.SomeRun.{HaveEachKind, SomeRunGoes};
ghost use Rattle.at_core.specs.Writes.{HeldOperationsStay, LeavesObjects, LeavesRows, LeavesTypes};

/// However passes interleave, the rule of the table holds after each step of each run: the history is proper, locks have
/// one holder, a value at home agrees with the history, a held lock keeps what it protects, a head that is whole says what
/// its object is, what was loaded with a head says so as long as the head is the same, births and numbers are distinct, and
/// a slot is out exactly to the pass that holds its lock. It holds in the opening state, and each step that is asked for
/// what it asks leaves it so. The steps are those on locks and their slots, splits and joins, those on places and intents
/// with both commits, those on heads, keys and inline values, and those that load the global sequence, go online and go
/// offline.
pub fn every_run()
    ensures opened { OpeningHolds }
    ensures kept { EveryRunHolds }
{}

/// There are such runs: this one goes from every opening state of a table whose limits leave places for four writes
/// and let a head be written, and each kind of step is made in it.
pub fn some_run()
    ensures kinds { HaveEachKind }
    ensures goes { SomeRunGoes }
{}

/// What a pass that holds locks may count on while others write. An operation that needs no lock of the types leaves
/// the classes, and of each object the class and the dictionary that it names. An operation leaves the class and the
/// dictionary name of each object that it doesn't move, and what the lock of a row protects, where the row is none of its
/// rows and its object isn't moved. So where the lock of the types and the
/// rows of an operation are held, and for `o.x` the row of the dictionary that the object names, its reply and its rows
/// are the same at every later point, and it is a write at each or at none.
pub fn held_operations()
    ensures types { LeavesTypes }
    ensures objects { LeavesObjects }
    ensures rows { LeavesRows }
    ensures stays { HeldOperationsStay }
{}

/// The steps that stand behind lines. What stands behind some lines and then what stands behind others stands behind both in
/// turn, and still does when the pass goes on. Nothing stands behind a line that was done at a place without a step; and the
/// trace in which a class is made stands behind that write at its place alone.
pub fn backing()
    ensures joined { BackingIsJoined }
    ensures stays { BackingStays }
    ensures nothing { NothingBacks }
    ensures class { ClassIsBacked }
{}
