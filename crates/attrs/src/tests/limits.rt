//! Runs that come to a limit, inputs that are too long, and what a script may have between its statements.
use super::{Ends, SOUND, command_ends, plain_ends};
use crate::command::TOO_MANY;
use crate::status::Status;
use at_script::Cause;
use std::alloc::{AllocError, Global};
use std::process::Abort;
use std::sync::Wait;
use std::test::Fail;
use std::thread::Threads;

/// How many statements `main` begins at most in a script that says no budget.
const BUDGET: u32 = 10_000;

/// How many reads that leaves after a class and an object are made.
const READS: u32 = BUDGET - 2;

/// How many objects there are at most.
const MOST_OBJECTS: u32 = 4_096;

/// The line that makes the one class of these scripts.
const CLASS_MADE: &str = "m 1 1 locked class C object = done\n";

/// What stands of the classes at the end.
const LAST_CLASSES: &str = "final\nclass object = object\nclass C = C object\n";

/// The transcript that has this after its script.
fn transcript(alloc: Global, script: &str, told: &str) -> Result<String, AllocError> {
    let length = script.len();
    format!(in alloc; "attrs transcript 1\nscript {length}\n{script}\n{told}")
}

/// Runs the script by the word `run`. What is written has to be the script as transcripts begin, and then what is told.
fn transcribes<R: Wait + Threads + Sync + Abort>(
    rt: &R,
    alloc: Global,
    script: &str,
    told: &str,
) -> Result<(), AllocError> {
    let wanted = transcript(alloc, script, told)?;
    command_ends(rt, alloc, &["run"], script, Status::Good, &wanted)
}

/// Comments, blanks and lines without words, and the transcript after the script.
const BLANKS: (&str, &str) = (
    "attrs 1\r
# func g

func f\t
  # nothing
end
 \t\r
main
#class D
 class\tC  object\r
    # put C.x 1
put C.x f
new a C

get\t\ta.x
end

#end",
    "lines 4
m 1 1 locked class C object = done
m 2 2 locked put C.x f = done
m 3 3 locked new C = made #0
m 4 3 locked get #0.x = method f #0
final
class object = object
class C = C object
.x f
object #0 C
end
",
);

#[test]
fn comments_and_blanks_say_nothing(rt: HostRuntime) -> Result<(), Fail> {
    let (script, told) = BLANKS;
    Ok(transcribes(&rt, rt.alloc(), script, told)?)
}

/// The text n times.
fn repeated(alloc: Global, text: &str, n: u32) -> Result<String, AllocError> {
    let mut repeated = String::new(alloc);
    for _ in 0..n {
        repeated.push_str(text)?;
    }
    Ok(repeated)
}

/// A script that has a statement n times after others.
fn repeating(alloc: Global, before: &str, statement: &str, n: u32) -> Result<String, AllocError> {
    let statements = repeated(alloc, statement, n)?;
    format!(in alloc; "attrs 1\nmain\n{before}{statements}end\n")
}

/// The lines of n reads, from the third on.
fn lines_of_reads(alloc: Global, n: u32) -> Result<String, AllocError> {
    let mut lines = String::new(alloc);
    for number in 3..n.saturating_add(3) {
        let line = format!(in alloc; "m {number} 2 locked get #0.x = noattr\n")?;
        lines.push_str(&line)?;
    }
    Ok(lines)
}

/// The transcript of `class C`, `new a C` and reads, without its script.
fn told_of_reads(alloc: Global, reads: u32, is_over: bool) -> Result<String, AllocError> {
    let (count, last) = if is_over {
        (BUDGET + 1, "m 10001 - local budget\n")
    } else {
        (BUDGET, "")
    };
    let lines = lines_of_reads(alloc, reads.min(READS))?;
    format!(in alloc;
        "lines {count}\n{CLASS_MADE}m 2 2 locked new C = made #0\n{lines}{last}{LAST_CLASSES}object #0 C\nend\n"
    )
}

fn transcribes_reads<R: Wait + Threads + Sync + Abort>(
    rt: &R,
    alloc: Global,
    reads: u32,
    is_over: bool,
) -> Result<(), AllocError> {
    let script = repeating(alloc, "class C\nnew a C\n", "get a.x\n", reads)?;
    let told = told_of_reads(alloc, reads, is_over)?;
    transcribes(rt, alloc, &script, &told)
}

#[test]
fn as_many_statements_as_there_may_be(rt: HostRuntime) -> Result<(), Fail> {
    for (reads, is_over) in [(READS, false), (READS + 1, true), (12_000, true)] {
        transcribes_reads(&rt, rt.alloc(), reads, is_over)?;
    }
    Ok(())
}

/// The lines of all the objects, from the second on.
fn lines_of_objects(alloc: Global) -> Result<String, AllocError> {
    let mut lines = String::new(alloc);
    for object in 0..MOST_OBJECTS {
        let number = object + 2;
        let line = format!(in alloc; "m {number} {number} locked new C = made #{object}\n")?;
        lines.push_str(&line)?;
    }
    Ok(lines)
}

/// The last lines, of all the objects.
fn ends_of_objects(alloc: Global) -> Result<String, AllocError> {
    let mut lines = String::new(alloc);
    for object in 0..MOST_OBJECTS {
        let line = format!(in alloc; "object #{object} C\n")?;
        lines.push_str(&line)?;
    }
    Ok(lines)
}

/// The transcript of `class C` and one `new a C` more than there may be, without its script.
fn told_of_objects(alloc: Global) -> Result<String, AllocError> {
    let lines = lines_of_objects(alloc)?;
    let ends = ends_of_objects(alloc)?;
    format!(in alloc;
        "lines 4098\n{CLASS_MADE}{lines}m 4098 4097 locked new C = full\n{LAST_CLASSES}{ends}end\n"
    )
}

#[test]
fn as_many_objects_as_there_may_be(rt: HostRuntime) -> Result<(), Fail> {
    let script = repeating(rt.alloc(), "class C\n", "new a C\n", MOST_OBJECTS + 1)?;
    let told = told_of_objects(rt.alloc())?;
    Ok(transcribes(&rt, rt.alloc(), &script, &told)?)
}

/// Runs bytes that are no script.
fn long_ends<R: Abort>(
    rt: &R,
    alloc: Global,
    length: usize,
    status: Status,
    written: &str,
) -> Result<(), AllocError> {
    let bytes = vec![in alloc; b'a'; length]?;
    let ends = Ends {
        most_read: 100_000,
        ..SOUND
    };
    plain_ends(rt, alloc, &bytes, &ends, status, written.as_bytes())
}

#[test]
fn long_inputs_are_refused(rt: HostRuntime) -> Result<(), Fail> {
    for (length, written, status) in [
        (
            TOO_MANY - 1,
            "refused 1 header\n",
            Status::Refused(1, Cause::Header),
        ),
        (TOO_MANY, "refused 0 long\n", Status::TooLong),
        (1_100_000, "refused 0 long\n", Status::TooLong),
    ] {
        long_ends(&rt, rt.alloc(), length, status, written)?;
    }
    Ok(())
}
