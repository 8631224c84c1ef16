//! The last mark of each file in a node log.
ghost use Rattle.std.specs.Prelude.{◌≡◌, ◌<◌, ◌^◌, ℕ, true, false, IfOk, length};
ghost use Rattle.std.specs.FinMap as map;
ghost use Rattle.f2_image.specs.Images.{Image};
ghost use Rattle.f2_image.specs.Packs.{Checkpoint};
ghost use Rattle.f2_image.specs.Chains.{chain, block_in};
ghost use Rattle.f2_image.specs.Reached.{IsDirect, IsTaken};
ghost use Rattle.f2_overlay.specs.Lasts.{AreLastMarks};

use f2_scan::LogBlock;
use std::alloc::{AllocError, Global};
use std::collections::BTreeMap;
use std::marker::Model;

/// The place in the node log of the last mark of each file that has one.
#[derive(Drop)]
pub struct LastMarks {
    places: BTreeMap<u32, u32>,
}

impl Model for LastMarks {
    ghost use Rattle.std.specs.Prelude.{ℕ};
    ghost use Rattle.std.specs.Ordering.{nat_cmp};
    ghost use Rattle.std.specs.Coded.{coded_ℕ};
    ghost use Rattle.std.specs.FinMap as map;

    ghost Value = { map.FinMap nat_cmp ℕ };

    ghost coded = { map.code coded_ℕ coded_ℕ };

    ghost view = { λ l. map.from_entries l.places.entries };
}

impl LastMarks {
    /// The place of the last mark of a file, or `None` where it has none.
    pub fn get(&self, ino: u32) -> Option<u32>
        ensures { result ≡ map.get self.now ino }
    {
        self.places.get(&ino).copied()
    }

    /// Whether recovery takes the block at a place of the log whose last marks these are: a marked one, or a direct node
    /// before a mark of its file.
    pub(crate) fn takes(&self, log: &[LogBlock], place: u32) -> bool
        requires lasts { AreLastMarks log.now self.now }
        requires within { place < length log.now }
        ensures taken { result ≡ true → (image : Image) (ckpt : Checkpoint) → log.now ≡ chain image ckpt → IsTaken image ckpt place (block_in log.now place) }
        ensures passed { result ≡ false → (image : Image) (ckpt : Checkpoint) → log.now ≡ chain image ckpt → ¬ (IsTaken image ckpt place (block_in log.now place)) }
    {
        self.takes_at(log, place as usize)
    }

    /// The same of a place of any size.
    pub(crate) fn takes_at(&self, log: &[LogBlock], place: usize) -> bool
        requires lasts { AreLastMarks log.now self.now }
        requires within { place < length log.now }
        ensures taken { result ≡ true → (image : Image) (ckpt : Checkpoint) → log.now ≡ chain image ckpt → IsTaken image ckpt place (block_in log.now place) }
        ensures passed { result ≡ false → (image : Image) (ckpt : Checkpoint) → log.now ≡ chain image ckpt → ¬ (IsTaken image ckpt place (block_in log.now place)) }
    {
        let logged = &log[place];
        let footer = f2_footer::read(&logged.block);
        if footer.offset == 0 {
            return footer.fsync;
        }
        match self.get(footer.ino) {
            Some(last) => place <= last as usize && is_direct(footer.offset),
            None => false,
        }
    }
}

/// Whether an offset is that of a direct node.
fn is_direct(offset: u32) -> bool
    ensures direct { result ≡ true → IsDirect offset }
    ensures other { result ≡ false → ¬ (IsDirect offset) }
{
    f2_shape::first_page(offset).is_some()
}

/// The last mark of each file in a node log, of fewer than 2^31 blocks.
pub fn last_marks(alloc: Global, log: &[LogBlock]) -> Result<LastMarks, AllocError>
    requires { length log.now < 2 ^ 31 }
    ensures { IfOk result (λ lasts. AreLastMarks log.now lasts) }
{
    let mut places = BTreeMap::new(alloc);
    for (place, logged) in log.iter().enumerate() {
        let footer = f2_footer::read(&logged.block);
        if footer.offset == 0 && footer.fsync {
            places.insert(footer.ino, place as u32)?;
        }
    }
    Ok(LastMarks { places })
}
