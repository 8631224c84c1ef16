//! The top calls.
ghost use Rattle.std.specs.Prelude.{◌≡◌, ◌↔◌, ℕ, List, IsTrue, map, string_bytes};
ghost use Rattle.f2_disk.specs.Faults.{Rose};
ghost use Rattle.f2_disk.specs.Meter.{HasFailed};
ghost use Rattle.f2_format.specs.Geometry.{ImageGeometry};
ghost use Rattle.f2_script.specs.declared.script.Grammar.TheVariants.{Replay};
ghost use Rattle.f2_play.specs.Due.{IsDue};
ghost use Rattle.f2_top.specs.Reads.{IsTaken};
ghost use Rattle.f2_top.specs.Words.{IsReplay};
ghost use Rattle.f2_top.specs.Listing.{IsListed, IsTree};
ghost use Rattle.f2_top.specs.Making.{IsMade, IsMkfs, IsNoMkfs};
ghost use Rattle.f2_top.specs.Replay.{CountsFaults, IsReplayed, IsRefused};

use crate::listing::{is_tree, list};
use crate::making::{mkfs, sizes_asked};
use crate::output::finish;
use crate::replay::replay;
use f2_disk::{Bench, Disk, Sink, Source};
use f2_model::Meet;
use f2_play::Status;
use std::alloc::Global;
use std::sync::Wait;
use std::thread::Threads;

fn is_replay(words: &[String]) -> bool
    ensures { IsTrue result ↔ IsReplay (map string_bytes words.now) }
{
    match words {
        [word] => word.as_str() == "replay",
        _ => false,
    }
}

/// Runs a command that needs no threads.
pub fn run_plain<S: Source, K: Sink, B: Bench, D: Disk>(
    alloc: Global,
    words: &[String],
    source: &mut S,
    sink: &mut K,
    bench: B,
    mut disk: D,
) -> (Status, B, D)
    // What `replay` wrote follows from the bytes that it read, and what it left on its bench is safe; a bench whose count
    // of faults stands at its end can't be asked whether a call of it failed.
    ensures replayed { IsReplay (map string_bytes words.now) → CountsFaults (B.meter bench)
        → IsReplayed (B.contents result.1) (S.remaining source.old) (S.remaining source.new) (K.written sink.old) (K.written sink.new) result.0 }

    // Each status comes exactly where the bytes are due it, unless a fault or want of memory comes between.
    ensures due { IsReplay (map string_bytes words.now)
        → (bytes : List ℕ) → IsTaken (S.remaining source.old) (S.remaining source.new) bytes → IsDue Replay bytes result.0 }

    // A new image stands on the disk as the words ask, or what kept it from that is told.
    ensures makes { (geom : ImageGeometry) → IsMkfs (map string_bytes words.now) geom
        → IsMade geom (D.contents disk) (D.contents result.2) (D.meter disk) (D.meter result.2) (K.written sink.old) (K.written sink.new) result.0 }

    // The tree that the image on the disk stands for is printed, or what kept it from that is told.
    ensures lists { IsTree (map string_bytes words.now)
        → IsListed (D.contents disk) (D.contents result.2) (D.meter disk) (D.meter result.2) (K.written sink.old) (K.written sink.new) result.0 }

    // Words that are none of these are no command, and only that is said.
    ensures usage { ¬ (IsReplay (map string_bytes words.now)) → IsNoMkfs (map string_bytes words.now) → ¬ (IsTree (map string_bytes words.now)) → IsRefused (K.written sink.old) (K.written sink.new) result.0 }

    // Nothing is read but by `replay`, which alone has a use for the bench; and only commands on an image touch the disk.
    ensures unread { ¬ (IsReplay (map string_bytes words.now)) → source.new ≡ source.old }
    ensures bench { ¬ (IsReplay (map string_bytes words.now)) → result.1 ≡ bench }
    ensures disk { IsNoMkfs (map string_bytes words.now) → ¬ (IsTree (map string_bytes words.now)) → result.2 ≡ disk }

    // A fault is answered only where the count of the object that it is blamed on rose.
    ensures read { result.0 ≡ Status.SourceFault → Rose (S.faults source.old) (S.faults source.new) }
    ensures silent { result.0 ≡ Status.SourceFault → sink.new ≡ sink.old }
    ensures wrote { result.0 ≡ Status.SinkFault → Rose (K.faults sink.old) (K.faults sink.new) }
    ensures disk_fault { result.0 ≡ Status.DiskFault → HasFailed (D.meter disk) (D.meter result.2) }
{
    if let Some(asked) = sizes_asked(words) {
        let status = mkfs(alloc, sink, &mut disk, asked);
        return (status, bench, disk);
    }
    if is_tree(words) {
        let status = list(alloc, sink, &mut disk);
        return (status, bench, disk);
    }
    if !is_replay(words) {
        return (finish(sink, Status::Usage), bench, disk);
    }
    let (status, bench) = replay(alloc, source, sink, bench);
    (finish(sink, status), bench, disk)
}

/// Runs a command. It waits for no other thread until races are a command.
pub fn run<R: Threads + Wait + Sync, S: Source, K: Sink, B: Bench, D: Disk + Send, M: Meet + Sync>(
    _rt: &R,
    alloc: Global,
    words: &[String],
    source: &mut S,
    sink: &mut K,
    bench: B,
    disk: D,
    _meet: &M,
) -> (Status, B, D)
    ensures replayed { IsReplay (map string_bytes words.now) → CountsFaults (B.meter bench)
        → IsReplayed (B.contents result.1) (S.remaining source.old) (S.remaining source.new) (K.written sink.old) (K.written sink.new) result.0 }
    ensures due { IsReplay (map string_bytes words.now)
        → (bytes : List ℕ) → IsTaken (S.remaining source.old) (S.remaining source.new) bytes → IsDue Replay bytes result.0 }

    ensures makes { (geom : ImageGeometry) → IsMkfs (map string_bytes words.now) geom
        → IsMade geom (D.contents disk) (D.contents result.2) (D.meter disk) (D.meter result.2) (K.written sink.old) (K.written sink.new) result.0 }
    ensures lists { IsTree (map string_bytes words.now)
        → IsListed (D.contents disk) (D.contents result.2) (D.meter disk) (D.meter result.2) (K.written sink.old) (K.written sink.new) result.0 }
    ensures usage { ¬ (IsReplay (map string_bytes words.now)) → IsNoMkfs (map string_bytes words.now) → ¬ (IsTree (map string_bytes words.now)) → IsRefused (K.written sink.old) (K.written sink.new) result.0 }
    ensures unread { ¬ (IsReplay (map string_bytes words.now)) → source.new ≡ source.old }
    ensures bench { ¬ (IsReplay (map string_bytes words.now)) → result.1 ≡ bench }
    ensures disk { IsNoMkfs (map string_bytes words.now) → ¬ (IsTree (map string_bytes words.now)) → result.2 ≡ disk }

    ensures read { result.0 ≡ Status.SourceFault → Rose (S.faults source.old) (S.faults source.new) }
    ensures silent { result.0 ≡ Status.SourceFault → sink.new ≡ sink.old }
    ensures wrote { result.0 ≡ Status.SinkFault → Rose (K.faults sink.old) (K.faults sink.new) }
    ensures disk_fault { result.0 ≡ Status.DiskFault → HasFailed (D.meter disk) (D.meter result.2) }
{
    run_plain(alloc, words, source, sink, bench, disk)
}
