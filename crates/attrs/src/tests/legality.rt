//! Whether lines are legal, as the plain data model decides, whose contract is the definition of a step. No object of
//! these scripts names the dictionary of another.
use at_line::{FINALLY_THREAD, Line, LineOp, LineReply, Local, MAIN_THREAD, What};
use at_value::{Obj, Op, Path, Place, Reply};
use at_world::Plain;
use std::alloc::{AllocError, Global};

/// What a line says that does this in the data model, which goes on with it. A section is kept.
pub fn told(plain: &mut Plain, op: &LineOp) -> Result<What, AllocError> {
    let reply = match op {
        LineOp::Of(op) => LineReply::Of(plain.apply(op)?),
        LineOp::Begin(_, _) => LineReply::Of(Reply::Done),
        LineOp::Finish => LineReply::Kept,
    };
    Ok(What::Did(plain.place(), Path::Locked, *op, reply))
}

/// The operation of the line, where it is a write, and its place.
fn write_of(line: &Line) -> Option<(Op, u64)> {
    match &line.what {
        What::Did(place, _, LineOp::Of(op), LineReply::Of(Reply::Done | Reply::Made(_, _))) => {
            Some((*op, place.0))
        }
        _ => None,
    }
}

fn place_of(line: &Line) -> Option<u64> {
    match &line.what {
        What::Did(place, _, _, _) => Some(place.0),
        What::Local(_) => None,
    }
}

fn write_at(lines: &[Line], wanted: u64) -> Option<Op> {
    for line in lines {
        if let Some((op, place)) = write_of(line) {
            if place == wanted {
                return Some(op);
            }
        }
    }
    None
}

fn count_of_writes(lines: &[Line]) -> u64 {
    let mut count = 0_u64;
    for line in lines {
        if write_of(line).is_some() {
            count = count.wrapping_add(1);
        }
    }
    count
}

/// The operations of the writes by their places, which have to be 1, 2 and so on.
fn history_of(alloc: Global, lines: &[Line]) -> Result<Option<Vec<Op>>, AllocError> {
    let mut history = Vec::new(alloc);
    for before in 0..count_of_writes(lines) {
        match write_at(lines, before.wrapping_add(1)) {
            Some(op) => history.push(op)?,
            None => return Ok(None),
        }
    }
    Ok(Some(history))
}

/// The data model after so many operations of the history, or after all.
fn model_after(alloc: Global, history: &[Op], count: u64) -> Result<Plain, AllocError> {
    let mut plain = Plain::new(alloc)?;
    let mut left = count;
    for op in history {
        if left > 0 {
            left = left.wrapping_sub(1);
            let _ = plain.apply(op)?;
        }
    }
    Ok(plain)
}

fn words_of(alloc: Global, what: &What) -> Result<String, AllocError> {
    format!(in alloc; "{what:?}")
}

/// Whether both say the same.
fn are_same(alloc: Global, one: &What, other: &What) -> Result<bool, AllocError> {
    let words = words_of(alloc, one)?;
    Ok(words == words_of(alloc, other)?)
}

/// Whether the line says what its operation gives at its place.
fn is_told(
    alloc: Global,
    history: &[Op],
    line: &Line,
    place: u64,
    op: &LineOp,
) -> Result<bool, AllocError> {
    let before = if write_of(line).is_some() {
        place.saturating_sub(1)
    } else {
        place
    };
    let mut plain = model_after(alloc, history, before)?;
    let told = told(&mut plain, op)?;
    are_same(alloc, &line.what, &told)
}

/// Whether the end of a section may reply so: a thread alone may be disturbed.
fn can_end(thread: u8, reply: &LineReply) -> bool {
    match reply {
        LineReply::Kept => true,
        LineReply::Suspended(_) => thread != MAIN_THREAD && thread != FINALLY_THREAD,
        LineReply::Of(_) => false,
    }
}

/// Whether what the line says is so at its place. No limit is met.
fn is_true(alloc: Global, history: &[Op], line: &Line) -> Result<bool, AllocError> {
    match &line.what {
        What::Did(Place(place), Path::Locked, LineOp::Finish, reply) => {
            Ok(can_end(line.thread, reply) && *place <= history.len() as u64)
        }
        What::Did(Place(place), _, op, _) => is_told(alloc, history, line, *place, op),
        What::Local(local) => Ok(!matches!(local, Local::Full(_) | Local::Worn(_))),
    }
}

fn are_true(alloc: Global, history: &[Op], lines: &[Line]) -> Result<bool, AllocError> {
    for line in lines {
        if !is_true(alloc, history, line)? {
            return Ok(false);
        }
    }
    Ok(true)
}

/// Whether the second thread begins when the first has ended.
fn waits_for(first: u8, second: u8) -> bool {
    second != MAIN_THREAD
        && first != FINALLY_THREAD
        && (first == MAIN_THREAD || second == FINALLY_THREAD)
}

/// Whether the place of a line is no lower than that of one of a thread which has ended before.
fn is_in_turn(first: &Line, second: &Line) -> bool {
    match (place_of(first), place_of(second)) {
        (Some(before), Some(place)) => before <= place || !waits_for(first.thread, second.thread),
        _ => true,
    }
}

/// Whether the place of a line is right after an earlier line of its thread.
fn is_placed_after(first: &Line, second: &Line) -> bool {
    match (place_of(first), place_of(second)) {
        (Some(before), Some(place)) if first.thread == second.thread => {
            before < place || (before == place && write_of(second).is_none())
        }
        _ => true,
    }
}

/// Whether this line stands well before each line after it.
fn is_well_before(lines: &[Line], i: usize, first: &Line) -> bool {
    for (j, second) in lines.iter().enumerate() {
        if i < j
            && !(is_placed_after(first, second)
                && is_in_turn(first, second)
                && is_in_turn(second, first))
        {
            return false;
        }
    }
    true
}

/// Whether places rise in each thread, and no thread goes back behind one that has ended before.
fn are_placed(lines: &[Line]) -> bool {
    for (i, first) in lines.iter().enumerate() {
        if !is_well_before(lines, i, first) {
            return false;
        }
    }
    true
}

/// A section of a thread: its objects, and the places of its begin and its end.
#[derive(Clone, Copy)]
struct Section {
    thread: u8,
    first: Obj,
    second: Option<Obj>,
    begin: u64,
    end: u64,
}

/// Whether the operation writes what is this object's own.
fn writes_object(op: &Op, object: Obj) -> bool {
    match op {
        Op::Set(o, _, _) | Op::Del(o, _) | Op::SetClass(o, _) => *o == object,
        Op::Share(o, other) => *o == object || *other == object,
        _ => false,
    }
}

impl Section {
    /// Whether the operation writes what is an object's of the section.
    fn is_touched_by(&self, op: &Op) -> bool {
        let second = match self.second {
            Some(second) => writes_object(op, second),
            None => false,
        };
        second || writes_object(op, self.first)
    }

    /// Whether the line writes an object of the section from another thread, while it was open.
    fn is_broken_by(&self, line: &Line) -> bool {
        match write_of(line) {
            Some((op, place)) => {
                let is_inside = self.begin < place && place <= self.end;
                is_inside && line.thread != self.thread && self.is_touched_by(&op)
            }
            None => false,
        }
    }

    fn is_kept(&self, lines: &[Line]) -> bool {
        for line in lines {
            if self.is_broken_by(line) {
                return false;
            }
        }
        true
    }
}

/// The section that is open at the line of this index, as if it ended at its begin. None is in another.
fn open_at(lines: &[Line], i: usize, thread: u8) -> Option<Section> {
    let mut open = None;
    for (j, line) in lines.iter().enumerate() {
        if j < i && line.thread == thread {
            match &line.what {
                What::Did(Place(begin), _, LineOp::Begin(first, second), _) => {
                    open = Some(Section {
                        thread,
                        first: *first,
                        second: *second,
                        begin: *begin,
                        end: *begin,
                    });
                }
                What::Did(_, _, LineOp::Finish, _) => open = None,
                _ => {}
            }
        }
    }
    open
}

/// The section that the line of this index ends, where it says that it was kept.
fn section_ended(lines: &[Line], i: usize, line: &Line) -> Option<Section> {
    match &line.what {
        What::Did(Place(end), _, LineOp::Finish, LineReply::Kept) => {
            let open = open_at(lines, i, line.thread)?;
            Some(Section { end: *end, ..open })
        }
        _ => None,
    }
}

fn are_kept(lines: &[Line]) -> bool {
    for (i, line) in lines.iter().enumerate() {
        if let Some(section) = section_ended(lines, i, line) {
            if !section.is_kept(lines) {
                return false;
            }
        }
    }
    true
}

/// Whether the lines are legal, and their sections are kept.
pub fn are_legal(alloc: Global, lines: &[Line]) -> Result<bool, AllocError> {
    match history_of(alloc, lines)? {
        Some(history) => {
            Ok(are_placed(lines) && are_kept(lines) && are_true(alloc, &history, lines)?)
        }
        None => Ok(false),
    }
}
