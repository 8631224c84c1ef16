//! The program `f2_reference_run`: runs a script on the plain machine, which has no disk, and prints what the definitions say.
//!
//! Its one word is `replay`, and the script comes from standard input. It takes every line of a script but `fail`,
//! `stop` and a `crash` that leaves other than the oldest or the newest content of each block: what the last flush left,
//! or all that was written. The steps of a checkpoint print no `block`, since the plain machine has none. It ends with
//! the number of its ending: 0 where the script was run to its end, 1 for other words, 2 and 3 for a script that is too
//! long or has a faulty line, 4 and 5 where standard input or output failed, 8 for sizes that no image has, 9 where
//! memory was refused.
//!
//! `scripts::run_script` gives what the bytes of a script print, as `f2_play` has it by the status; of all that this allows
//! it is one text, since what the plain machine chooses stands in `specs/Stages` and `specs/Chosen`: the least free number
//! for a new row, what the next mount finds after a crash, and no blocks before the tail of a checkpoint.
#![tactic(auto)]

mod endings;
mod player;
mod scripts;
mod stops;

use endings::push_last_line;
use f2_play::Status;
use scripts::run_script;
use std::alloc::AllocError;
use std::env;
use std::io::{self, Read, Write};
use std::process::ExitCode;
use std::rt::Env;

/// The most bytes that are read: one more than a script may have.
const MOST_READ: u64 = 1_048_577;

/// Whether the program's one word is `replay`.
fn is_replay<R: Env + AllocGlobal>(rt: &R) -> Result<bool, AllocError> {
    let Ok(args) = env::args(rt) else {
        return Ok(false);
    };
    let words: Vec<String> = args.skip(1).collect(rt.alloc())?;
    Ok(matches!(words.as_slice(), [word] if word.as_str() == "replay"))
}

/// Runs the script on standard input, and answers the status with which that ended.
fn replay<R: Env + AllocGlobal + Input + Print>(rt: &R) -> Result<Status, AllocError> {
    let (status, mut text) = if is_replay(rt)? {
        let mut script = Vec::new(rt.alloc());
        if rt
            .reader()
            .take(MOST_READ)
            .read_to_end(&mut script)
            .is_err()
        {
            return Ok(Status::SourceFault);
        }
        run_script(rt.alloc(), script.as_slice())
    } else {
        (Status::Usage, Vec::new(rt.alloc()))
    };
    push_last_line(status, &mut text)?;
    if io::writer(rt).write_all(text.as_slice()).is_err() {
        return Ok(Status::SinkFault);
    }
    Ok(status)
}

fn main(rt: HostRuntime) -> ExitCode {
    let status = replay(&rt).unwrap_or(Status::Memory);
    ExitCode::from(status.number())
}
