//! Running a script on the plain data model.
ghost use Rattle.std.specs.Prelude.{◌≡◌, ◌+◌, ◌*◌, ◌<◌, ◌≤◌, None, length, replicate, vec_capacity, IfOk};
ghost use Rattle.at_thread.specs.Execution.{next_of};
ghost use Rattle.at_thread.specs.Threads.{state_of};
ghost use Rattle.at_script.specs.Limits as limits;
ghost use Rattle.at_run.specs.LegalRun.{IsLegalRun};
ghost use Rattle.at_run.specs.PlainRun.{IsPlainRun};
ghost use Rattle.at_run.specs.Turns.{HasRoom, HasRoomFor, IsPut, Did, Turned};
ghost use Rattle.at_run.specs.Blocks.{IsAtStart, RunsBlock, Stands, IsWholeRun, most_of, statements_of};

use at_line::{FINALLY_THREAD, Line, LineOp, LineReply, MAIN_THREAD, Ran, What};
use at_script::{Block, Script, Stmt};
use at_thread::{Next, ReplyUse, Thread};
use at_value::{Path, Reply, Sequence, Value};
use at_world::Plain;
use std::alloc::{AllocError, Global};

/// Runs a script from the opening world on, each path `Locked`: `main`, then each thread in turn, then `finally`.
/// Sections are kept, and checkpoints do nothing. The room for all lines, twice the budget and one more for each block,
/// and for the variables is taken before the first statement; after it only an operation of the data model may take
/// memory.
pub fn run_plain(alloc: Global, script: &Script) -> Result<Ran, AllocError>
    ensures plain { IfOk result (λ ran. IsPlainRun script.now ran.lines ran.last) }

    // It is a legal run.
    ensures legal { IfOk result (λ ran. IsLegalRun script.now ran.lines ran.last) }
{
    let mut plain = Plain::new(alloc)?;
    let mut lines = Vec::with_capacity(alloc, most_lines(script))?;
    let mut variables = unbound(alloc, script.vars())?;
    let main = statements_of(script, Block::Main);
    let mut executing = Thread::new(alloc, main, unbound(alloc, script.vars())?)?;
    run_block(&mut plain, script, &mut executing, MAIN_THREAD, &mut lines)?;
    variables.copy_from_slice(executing.variables());
    run_threads(&mut plain, script, &mut executing, &variables, &mut lines)?;
    run_finally(&mut plain, script, &mut executing, &variables, &mut lines)?;
    let last = plain.last()?;
    Ok(Ran {
        lines: Sequence::of(lines),
        last,
    })
}

/// Runs each thread in turn, with these variables at its begin.
fn run_threads<'a>(
    plain: &mut Plain,
    script: &'a Script,
    executing: &mut Thread<'a>,
    variables: &[Option<Value>],
    lines: &mut Vec<Line>,
) -> Result<(), AllocError>
    requires { Stands script.now variables.now 0 plain.old lines.old.items (vec_capacity lines.old)
        (state_of executing.old) }
    ensures { IfOk result (λ _. Stands script.now variables.now (length script.now.threads) plain.new lines.new.items
        (vec_capacity lines.new) (state_of executing.new)) }
{
    for thread in 0..script.threads() {
        run_thread(plain, script, executing, variables, thread, lines)?;
    }
    Ok(())
}

/// Runs the thread with this number, from 0, with these variables at its begin.
fn run_thread<'a>(
    plain: &mut Plain,
    script: &'a Script,
    executing: &mut Thread<'a>,
    variables: &[Option<Value>],
    thread: u8,
    lines: &mut Vec<Line>,
) -> Result<(), AllocError>
    requires there { thread < length script.now.threads }
    requires before { Stands script.now variables.now thread plain.old lines.old.items (vec_capacity lines.old)
        (state_of executing.old) }
    ensures { IfOk result (λ _. Stands script.now variables.now (thread + 1) plain.new lines.new.items
        (vec_capacity lines.new) (state_of executing.new)) }
{
    executing.restart(statements_of(script, Block::Thread(thread)), variables);
    run_block(plain, script, executing, thread + 1, lines)
}

/// Runs `finally`, where the script has it, with these variables at its begin.
fn run_finally<'a>(
    plain: &mut Plain,
    script: &'a Script,
    executing: &mut Thread<'a>,
    variables: &[Option<Value>],
    lines: &mut Vec<Line>,
) -> Result<(), AllocError>
    requires { Stands script.now variables.now (length script.now.threads) plain.old lines.old.items
        (vec_capacity lines.old) (state_of executing.old) }
    ensures { IfOk result (λ _. IsWholeRun script.now plain.new lines.new.items) }
{
    let Some(block) = script.block(Block::Finally) else {
        return Ok(());
    };
    executing.restart(block, variables);
    run_block(plain, script, executing, FINALLY_THREAD, lines)
}

/// Runs a block to its end: its lines come after those that are there.
fn run_block<'a>(
    plain: &mut Plain,
    script: &'a Script,
    executing: &mut Thread<'a>,
    thread: u8,
    lines: &mut Vec<Line>,
) -> Result<(), AllocError>
    requires begins { IsAtStart (state_of executing.old) }
    requires room { length lines.old.items + most_of script.now ≤ vec_capacity lines.old }
    requires budget { script.now.budget ≤ limits.most_budget }
    ensures runs { IfOk result (λ _. RunsBlock script.now thread (state_of executing.old) plain.old lines.old.items
        (state_of executing.new) plain.new lines.new.items) }
    ensures capacity { vec_capacity lines.new ≡ vec_capacity lines.old }
{
    let mut number = 0;
    while take_turn(plain, script, executing, thread, &mut number, lines)? {}
    Ok(())
}

/// The statements of a block; none where the script has no such block.
fn statements_of(script: &Script, block: Block) -> &[Stmt]
    ensures { result.now ≡ statements_of script.now block }
{
    match script.block(block) {
        Some(statements) => statements,
        None => &[],
    }
}

fn unbound(alloc: Global, count: usize) -> Result<Vec<Option<Value>>, AllocError>
    ensures { IfOk result (λ variables. variables.items ≡ replicate count None) }
{
    vec![in alloc; None; count]
}

/// How many lines `main`, the threads and `finally` have at most: each two a statement, and one more.
fn most_lines(script: &Script) -> usize
    ensures same { result ≡ (length script.now.threads + 2) * most_of script.now }
    ensures budget { script.now.budget ≤ limits.most_budget }
    ensures threads { length script.now.threads ≤ limits.most_threads }
{
    let each = 2 * script.budget() as usize + 1;
    (usize::from(script.threads()) + 2) * each
}

/// Takes a turn of the thread, and puts its line, where it has one, after those that are there: whether the thread goes
/// on.
fn take_turn<'a>(
    plain: &mut Plain,
    script: &'a Script,
    executing: &mut Thread<'a>,
    thread: u8,
    number: &mut u32,
    lines: &mut Vec<Line>,
) -> Result<bool, AllocError>
    requires { HasRoomFor (next_of script.now (state_of executing.old)) number.old (length lines.old.items)
        (vec_capacity lines.old) }
    ensures turned { IfOk result (λ goes_on. Turned script.now thread (state_of executing.old) plain.old number.old
        lines.old.items goes_on (state_of executing.new) plain.new number.new lines.new.items) }
    ensures capacity { vec_capacity lines.new ≡ vec_capacity lines.old }
{
    match executing.next(script) {
        Next::Ended => return Ok(false),
        // No read of the plain data model is under way, so a checkpoint does nothing.
        Next::Silent | Next::Checkpoint => {}
        Next::Says(local) => put_line(What::Local(local), thread, number, lines),
        Next::Asks(op, reply_use) => {
            do_operation(plain, executing, &op, &reply_use, thread, number, lines)?
        }
    }
    Ok(true)
}

/// Does the operation that a thread asks for, and puts its line.
fn do_operation(
    plain: &mut Plain,
    executing: &mut Thread,
    op: &LineOp,
    reply_use: &ReplyUse,
    thread: u8,
    number: &mut u32,
    lines: &mut Vec<Line>,
) -> Result<(), AllocError>
    requires { HasRoom number.old (length lines.old.items) (vec_capacity lines.old) }
    ensures did { IfOk result (λ _. Did thread op.now reply_use.now (state_of executing.old) plain.old number.old
        lines.old.items (state_of executing.new) plain.new number.new lines.new.items) }
    ensures capacity { vec_capacity lines.new ≡ vec_capacity lines.old }
{
    let reply = match op {
        LineOp::Of(operation) => LineReply::Of(plain.apply(operation)?),
        LineOp::Begin(_, _) => LineReply::Of(Reply::Done),
        LineOp::Finish => LineReply::Kept,
    };
    executing.accept(reply_use, &reply);
    let what = What::Did(plain.place(), Path::Locked, *op, reply);
    put_line(what, thread, number, lines);
    Ok(())
}

/// Puts a line of the thread after those that are there: its number is one above that of the line before it.
fn put_line(what: What, thread: u8, number: &mut u32, lines: &mut Vec<Line>)
    requires { HasRoom number.old (length lines.old.items) (vec_capacity lines.old) }
    ensures put { IsPut thread number.old lines.old.items what number.new lines.new.items }
    ensures capacity { vec_capacity lines.new ≡ vec_capacity lines.old }
{
    *number += 1;
    lines.push_reserved(Line {
        what,
        number: *number,
        thread,
    });
}
