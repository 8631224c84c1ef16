//! The command `replay`.
ghost use Rattle.std.specs.Prelude.{◌≡◌, ◌≤◌, ℕ, List};
ghost use Rattle.std.specs.Io.KnownBytes.{Appends};
ghost use Rattle.f2_disk.specs.Faults.{Rose};
ghost use Rattle.f2_recover.specs.declared.faults.BadImage.{BadImage};
ghost use Rattle.f2_script.specs.declared.script.Grammar.TheVariants.{Replay};
ghost use Rattle.f2_play.specs.Due.{IsDue};
ghost use Rattle.f2_top.specs.Reads.{IsTaken};
ghost use Rattle.f2_top.specs.Replay.{CountsFaults};
ghost use Rattle.f2_top.specs.Runs.{Ran};

use crate::input::{Unread, read_script};
use crate::player::play;
use f2_disk::{Bench, Sink, Source};
use f2_play::Status;
use f2_script::{Grammar, ScriptFault, parse};
use std::alloc::Global;

/// Runs the script on a bench, which comes back. The last line of the status isn't written yet.
pub(crate) fn replay<S: Source, K: Sink, B: Bench>(
    alloc: Global,
    source: &mut S,
    sink: &mut K,
    bench: B,
) -> (Status, B)
    ensures ran { CountsFaults (B.meter bench) → (out : List ℕ) × Appends (K.written sink.old) (K.written sink.new) out
        × Ran (B.contents result.1) (S.remaining source.old) (S.remaining source.new) result.0 out }
    ensures due { (bytes : List ℕ) → IsTaken (S.remaining source.old) (S.remaining source.new) bytes → IsDue Replay bytes result.0 }
    ensures no_disk { ¬ (result.0 ≡ Status.DiskFault) }
    ensures no_image { (bad : BadImage) → ¬ (result.0 ≡ Status.BadImage bad) }
    ensures read { result.0 ≡ Status.SourceFault → Rose (S.faults source.old) (S.faults source.new) }
    ensures silent { result.0 ≡ Status.SourceFault → sink.new ≡ sink.old }
    ensures later { K.faults sink.old ≤ K.faults sink.new }
    ensures cause { result.0 ≡ Status.SinkFault → Rose (K.faults sink.old) (K.faults sink.new) }
{
    let script = match read_script(alloc, source) {
        Ok(script) => script,
        Err(Unread::Failed) => return (Status::SourceFault, bench),
        Err(Unread::Memory) => return (Status::Memory, bench),
    };
    match parse(alloc, script.as_slice(), Grammar::Replay) {
        Ok(lines) => play(alloc, sink, bench, lines),
        Err(ScriptFault::TooLong) => (Status::TooLong, bench),
        Err(ScriptFault::Line { line }) => (Status::Script { line }, bench),
        Err(ScriptFault::Memory) => (Status::Memory, bench),
    }
}
