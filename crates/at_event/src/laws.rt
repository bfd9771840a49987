//! What is true of every list of events. Each function does nothing: its contract is the law.
ghost use Rattle.at_event.specs.Laws.{EventsAreSound, JoinsSeeBoth, ReadsAreCalls, WritesAreCalls};
ghost use Rattle.at_event.specs.Worked.{IsWorked};
ghost use Rattle.at_event.specs.OneView.{OneViewRunsAreLinearized, SerialLinesAreEvents};

/// However views split, join, read and write, each event at one moment, the outcome is one history: it is proper, the
/// lines of the events have true replies at their places in it, places rise in each view, and each place of the
/// history is the own place of exactly one live view.
pub fn every_events()
    ensures { EventsAreSound }
{}

/// Each read and each write of an event is a call at one place, by the view that makes it, in every state that events
/// lead to.
pub fn events_are_calls()
    ensures reads { ReadsAreCalls }
    ensures writes { WritesAreCalls }
{}

/// A view that takes in another has then seen all that either had seen, and the places of both are its own.
pub fn joins_see_both()
    ensures { JoinsSeeBoth }
{}

/// What one view alone brings about, by whatever paths, with any local lines between that name no limit, is linearized
/// under any limits, and the history that the events lead to is the history of the list.
pub fn one_view_is_linearized()
    ensures { OneViewRunsAreLinearized }
{}

/// What lines say one after another, each at the end of the history so far, reads and writes of one view say: a thread
/// that runs alone is one view.
pub fn serial_lines_are_events()
    ensures { SerialLinesAreEvents }
{}

/// There are such lists of events: in this one two views write, each of them reads, and the first takes the second in.
pub fn worked_run()
    ensures { IsWorked }
{}
