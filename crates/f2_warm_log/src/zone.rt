//! What a reserve does to the zone.

ghost use Rattle.std.specs.Prelude.{◌≡◌, ◌+◌, ◌<◌, ◌≤◌, ◌⊎◌, ◌↔◌, true, IsTrue};
ghost use Rattle.std.specs.FinSet as set;
ghost use Rattle.std.specs.Bool.{OnTrue, OnFalse};
ghost use Rattle.f2_warm_log.specs.Log.{after_write, DrawsAhead};

use f2_space::Zone;

/// Says in the zone that the block at a drawn address is being written. It is refused, and nothing changes, exactly
/// where the block wasn't promised and the log's third has no room beside the promises.
pub(crate) fn begin_write(zone: &mut Zone, at: u32, promised: bool) -> bool
    requires kept { zone.old.kept ≤ zone.old.c }
    requires drawn { zone.old.log < zone.old.c → set.contains zone.old.drawn at ≡ true }
    requires promised { OnTrue promised (0 < zone.old.promised) }
    requires third { zone.old.log + zone.old.promised ≤ zone.old.c }
    ensures begun { IsTrue result ↔ ((promised ≡ true) ⊎ (zone.old.log + zone.old.promised < zone.old.c)) }
    ensures room { OnTrue result (zone.old.log < zone.old.c) }
    ensures written { OnTrue result (zone.new ≡ after_write zone.old at promised) }
    ensures refused { OnFalse result (zone.new ≡ zone.old) }
{
    // A block that nobody promised is promised now.
    if !promised && zone.reserve(1).is_err() {
        return false;
    }
    zone.wrote(at, true);
    true
}

/// Draws the address of the log's next position, or gives 0 where there is none.
pub(crate) fn draw_ahead(zone: &mut Zone, more: bool) -> u32
    requires kept { zone.old.kept ≤ zone.old.c }
    requires more { IsTrue more ↔ (zone.old.log < zone.old.c) }
    requires none_drawn { set.len zone.old.drawn ≡ 0 }
    ensures { DrawsAhead zone.old zone.new result }
{
    if more { zone.draw() } else { 0 }
}
