//! Whether a zone lacks room for one more fsync.
ghost use Rattle.std.specs.Prelude.{◌≡◌, ℕ, ◌<◌, ◌^◌, ◌||◌, nat_lt, Some, IfOk, true, All};
ghost use Rattle.std.specs.FinMap as map;
ghost use Rattle.f2_files.specs.Known.{Known, IsKnownOf};
ghost use Rattle.f2_format.specs.Offsets.{node_count, page_limit};
ghost use Rattle.f2_model.specs.Fallback.{held, lacks_room};
ghost use Rattle.f2_model.specs.State.{State};
ghost use Rattle.f2_model.specs.declared.rows.Kind.TheVariants.{Regular};
ghost use Rattle.f2_model.specs.declared.rows.Row.{Row};
ghost use Rattle.f2_since.specs.Counted.{IsSince, IsRunning, writes_with};

use crate::blocks::{Blocks, needed, owed};
use crate::since::Since;
use f2_files::{Addresses, Files, Shape};
use f2_held::Both;
use f2_model::{Kind, Limits};
use f2_shape::{PAGE_LIMIT, nodes_of};
use std::alloc::{AllocError, Global};

/// The most nodes and data blocks of a file, far beyond what a file can have.
const MOST_BLOCKS: u64 = (1 << 31) - 1;

/// The longest name.
pub(crate) const MOST_NAME: usize = 255;

impl Since {
    /// Whether a zone lacks room for what is to be written since the base, were a file fsynced more.
    fn lacks_room_to_write(
        &self,
        files: &Files,
        limits: Limits,
        ino: u32,
    ) -> Result<bool, AllocError>
        ensures { IfOk result (λ lacks. (state : State) → IsKnownOf files.now state → IsSince self.now state
            → lacks ≡ (nat_lt limits.nodes (writes_with state ino).nodes || nat_lt limits.data_blocks (writes_with state ino).pages)) }
    {
        let owed = owed(files)?;
        let total = self.written().plus(owed).plus(needed(files, ino));
        Ok(total.nodes > u128::from(limits.nodes) || total.pages > u128::from(limits.data_blocks))
    }

    /// What was written to each zone since the base.
    fn written(&self) -> Blocks
        ensures exact { result ≡ record { nodes = self.now.nodes; pages = self.now.pages } }
        ensures few_nodes { result.nodes < 2 ^ 64 }
        ensures few_pages { result.pages < 2 ^ 64 }
    {
        Blocks {
            nodes: u128::from(self.nodes),
            pages: u128::from(self.pages),
        }
    }

    /// Whether a zone lacks room for what recovery may find, were a file fsynced more whose directory the base has.
    fn lacks_room_to_hold(&self, limits: Limits, shape: &Shape) -> Result<bool, AllocError>
        requires { map.contains_key self.now.held.directories shape.now.parent ≡ true }
        ensures { IfOk result (λ lacks. (files : Known) (state : State) → IsKnownOf files state → IsSince self.now state → IsRunning state
            → map.get files.shapes shape.now.ino ≡ Some shape.now → shape.now.kind ≡ Regular
            → lacks ≡ (nat_lt limits.nodes (held state shape.now.ino).nodes || nat_lt limits.data_blocks (held state shape.now.ino).pages)) }
    {
        let size = size_of_file(self.alloc, &shape.pages)?;
        if shape.name.len() > MOST_NAME {
            return Err(AllocError);
        }
        let held = self
            .held
            .with(shape.ino, size, Some((shape.parent, &shape.name)))?;
        Ok(held.nodes > u64::from(limits.nodes) || held.pages > u64::from(limits.data_blocks))
    }

    /// Whether a zone lacks room for one more fsync of a file whose directory the base has: for what is to be written
    /// since the base, or for what recovery may find.
    pub(crate) fn lacks_room(
        &self,
        files: &Files,
        limits: Limits,
        shape: &Shape,
    ) -> Result<bool, AllocError>
        requires { map.contains_key self.now.held.directories shape.now.parent ≡ true }
        ensures { IfOk result (λ lacks. (state : State) → IsKnownOf files.now state → IsSince self.now state → IsRunning state
            → map.get files.now.shapes shape.now.ino ≡ Some shape.now → shape.now.kind ≡ Regular
            → lacks ≡ lacks_room limits state shape.now.ino) }
    {
        let to_write = self.lacks_room_to_write(files, limits, shape.ino)?;
        let to_hold = self.lacks_room_to_hold(limits, shape)?;
        Ok(to_write || to_hold)
    }
}

/// What a file takes. One with a page that no file can have, or of more blocks than there could be memory for, counts as
/// want of memory.
pub(crate) fn size_of_file(alloc: Global, pages: &Addresses) -> Result<Both, AllocError>
    ensures nodes { IfOk result (λ size. size.nodes ≡ node_count (map.keys pages.now)) }
    ensures pages { IfOk result (λ size. size.pages ≡ map.len pages.now) }
    ensures few_nodes { IfOk result (λ size. size.nodes < 2 ^ 31) }
    ensures few_pages { IfOk result (λ size. size.pages < 2 ^ 31) }
{
    let numbers = pages.numbers(alloc)?;
    if !are_below(&numbers) {
        return Err(AllocError);
    }
    let size = Both {
        nodes: nodes_of(&numbers),
        pages: pages.len() as u64,
    };
    if size.nodes > MOST_BLOCKS || size.pages > MOST_BLOCKS {
        return Err(AllocError);
    }
    Ok(size)
}

/// Whether a file can have all of some pages.
fn are_below(pages: &[u64]) -> bool
    ensures { result ≡ true → All (λ page. page < page_limit) pages.now }
{
    pages.iter().all(|page| *page < PAGE_LIMIT)
}
