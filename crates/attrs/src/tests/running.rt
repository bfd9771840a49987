//! Whether lines are a run of a script, as the thread decides that executes its blocks, and whose contract is the
//! relation of executions.
use at_line::{FINALLY_THREAD, Line, LineOp, LineReply, Local, MAIN_THREAD, What};
use at_script::{Block, Script, Stmt};
use at_thread::{Next, ReplyUse, Thread};
use at_value::{Op, Value};
use std::alloc::{AllocError, Global};
use std::test::Fail;

/// How many turns the threads of these scripts take at most.
const MOST_TURNS: u32 = 1000;

/// Lines of a run, and how many of them were taken.
#[derive(Drop)]
struct Reading<'a> {
    lines: &'a [Line],
    taken: usize,
}

impl<'a> Reading<'a> {
    /// The next line, where it is of this thread.
    fn next_of(&self, thread: u8) -> Option<&'a Line> {
        let line = self.lines.get(self.taken)?;
        if line.thread == thread {
            Some(line)
        } else {
            None
        }
    }

    fn is_done(&self) -> bool {
        self.taken == self.lines.len()
    }
}

/// An operation that can be a write.
fn can_write(op: &Op) -> bool {
    matches!(
        op,
        Op::NewClass(_, _) | Op::TypeSet(_, _, _) | Op::TypeDel(_, _)
    ) || matches!(op, Op::SetBases(_, _) | Op::New(_))
        || can_wear(op)
}

/// An operation that writes an object's own.
fn can_wear(op: &Op) -> bool {
    matches!(
        op,
        Op::Set(_, _, _) | Op::Del(_, _) | Op::SetClass(_, _) | Op::Share(_, _)
    )
}

/// Whether the line may stand where the operation was asked for.
fn stands_for(op: &LineOp, local: &Local) -> bool {
    let LineOp::Of(op) = op else {
        return false;
    };
    match local {
        Local::Full(_) => can_write(op),
        Local::Worn(_) => can_wear(op),
        _ => false,
    }
}

/// Whether what was asked for may have this reply.
fn can_reply(op: &LineOp, reply: &LineReply) -> bool {
    match (op, reply) {
        (LineOp::Of(_) | LineOp::Begin(_, _), LineReply::Of(_)) => true,
        (LineOp::Finish, LineReply::Kept | LineReply::Suspended(_)) => true,
        _ => false,
    }
}

/// The thread takes the line to what it asked for.
fn takes(thread: &mut Thread, op: &LineOp, used: &ReplyUse, line: &Line) -> bool {
    match &line.what {
        What::Did(_, _, done, reply) => {
            thread.accept(used, reply);
            *done == *op && can_reply(op, reply)
        }
        What::Local(local) => {
            thread.decline();
            stands_for(op, local)
        }
    }
}

fn says(line: &Line, local: &Local) -> bool {
    match &line.what {
        What::Did(_, _, _, _) => false,
        What::Local(said) => *said == *local,
    }
}

/// Whether the threads come by rising number, and the lines of each are numbered from 1.
fn are_numbered(lines: &[Line]) -> bool {
    let mut thread = MAIN_THREAD;
    let mut number = 0_u32;
    for line in lines {
        if line.thread > thread {
            thread = line.thread;
            number = 0;
        }
        number = number.wrapping_add(1);
        if line.number != number || line.thread != thread {
            return false;
        }
    }
    true
}

/// The statements of a block; none where the script doesn't have it.
fn block_of(script: &Script, block: Block) -> &[Stmt] {
    match script.block(block) {
        Some(statements) => statements,
        None => &[],
    }
}

/// What a turn of a thread came to.
enum Turn {
    Ended,
    /// It had nothing to say.
    Silent,
    /// It said this line.
    Said,
    /// It said another line.
    Strayed,
}

fn said(is_so: bool) -> Turn {
    if is_so { Turn::Said } else { Turn::Strayed }
}

/// One turn of the thread, where this line comes next, if any.
fn take_turn<'a>(thread: &mut Thread<'a>, script: &'a Script, line: Option<&Line>) -> Turn {
    match (thread.next(script), line) {
        (Next::Ended, _) => Turn::Ended,
        (Next::Silent | Next::Checkpoint, _) => Turn::Silent,
        (Next::Says(local), Some(line)) => said(says(line, &local)),
        (Next::Asks(op, used), Some(line)) => said(takes(thread, &op, &used, line)),
        (_, None) => Turn::Strayed,
    }
}

/// Whether the thread demands the next lines of this number, one after another, up to its end.
fn goes_along<'a>(
    thread: &mut Thread<'a>,
    script: &'a Script,
    number: u8,
    reading: &mut Reading,
) -> Result<bool, Fail> {
    for _ in 0..MOST_TURNS {
        match take_turn(thread, script, reading.next_of(number)) {
            Turn::Ended => return Ok(true),
            Turn::Silent => {}
            Turn::Said => reading.taken = reading.taken.wrapping_add(1),
            Turn::Strayed => return Ok(false),
        }
    }
    Err("the thread doesn't end".into())
}

/// Whether the next lines of this number execute the block, from these variables on.
fn executes(
    alloc: Global,
    script: &Script,
    (block, number): (Block, u8),
    variables: &[Option<Value>],
    reading: &mut Reading,
) -> Result<bool, Fail> {
    let variables = Vec::from_slice(alloc, variables)?;
    let mut thread = Thread::new(alloc, block_of(script, block), variables)?;
    goes_along(&mut thread, script, number, reading)
}

/// Whether the next lines execute the threads and `finally`, from these variables on.
fn execute_others(
    alloc: Global,
    script: &Script,
    variables: &[Option<Value>],
    reading: &mut Reading,
) -> Result<bool, Fail> {
    for thread in 0..script.threads() {
        let block = (Block::Thread(thread), thread.wrapping_add(1));
        if !executes(alloc, script, block, variables, reading)? {
            return Ok(false);
        }
    }
    let last = (Block::Finally, FINALLY_THREAD);
    executes(alloc, script, last, variables, reading)
}

fn unbound(alloc: Global, script: &Script) -> Result<Vec<Option<Value>>, AllocError> {
    vec![in alloc; None; script.vars()]
}

/// Whether the blocks of the script demand these lines.
fn follow(alloc: Global, script: &Script, reading: &mut Reading) -> Result<bool, Fail> {
    let statements = block_of(script, Block::Main);
    let mut main = Thread::new(alloc, statements, unbound(alloc, script)?)?;
    Ok(
        goes_along(&mut main, script, MAIN_THREAD, reading)?
            && execute_others(alloc, script, main.variables(), reading)?,
    )
}

/// Whether the lines are a run of the script.
pub fn is_run(alloc: Global, script: &Script, lines: &[Line]) -> Result<bool, Fail> {
    let mut reading = Reading { lines, taken: 0 };
    Ok(are_numbered(lines) && follow(alloc, script, &mut reading)? && reading.is_done())
}
