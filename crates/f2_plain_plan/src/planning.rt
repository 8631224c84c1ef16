//! Planning a checkpoint.
ghost use Rattle.std.specs.Prelude.{◌≡◌, ◌+◌, ◌^◌, ◌<◌, ◌≤◌, IfOk, length};
ghost use Rattle.f2_format.specs.Geometry.{node_third, data_third};
ghost use Rattle.f2_laid.specs.Laid.{IsKept, IsStorable};
ghost use Rattle.f2_laid.specs.Planned.{IsPlanOf};

use crate::directories::rows_of;
use crate::drafts::drafted;
use crate::inodes::add_inodes;
use crate::packs::{add_pack, head};
use crate::plans::{Next, Plan};
use crate::tables::add_tables;
use crate::zones::log_start;
use f2_laid::{Places, Stored};
use f2_model::Tree;
use std::alloc::{AllocError, Global};

/// The blocks by which a tree is laid out plainly, away from the places `old` of the last checkpoint.
///
/// A place is the least free address of its zone, so the blocks of an old place aren't written. The tree has to be
/// one that an image of these sizes can have, and the old places no more than a third of each zone. Only want of
/// memory fails.
pub fn plan(alloc: Global, tree: &Tree, old: &Places, next: Next) -> Result<Plan, AllocError>
    requires storable { IsStorable next.geometry tree.now }
    requires kept { IsKept next.geometry old.now }
    requires version { 1 ≤ next.version }
    requires low { next.version < 2 ^ 32 }

    ensures plan { IfOk result (λ plan. IsPlanOf tree.now old.now plan.stored plan.blocks.items plan.tail) }
    ensures geometry { IfOk result (λ plan. plan.stored.geometry ≡ next.geometry) }
    ensures side { IfOk result (λ plan. plan.stored.side ≡ next.side) }
    ensures version { IfOk result (λ plan. plan.stored.version ≡ next.version) }
    ensures second { IfOk result (λ plan. plan.stored.second ≡ next.second) }
    ensures kept { IfOk result (λ plan. IsKept next.geometry plan.stored.places) }
    ensures most { IfOk result (λ plan. length plan.blocks.items ≤ node_third next.geometry + data_third next.geometry + next.geometry.nat + 2) }
{
    let draft = drafted(alloc, &next.geometry, tree, old)?;
    let places = draft.places;
    let mut blocks = draft.blocks;
    add_inodes(&mut blocks, rows_of(alloc, tree)?.as_slice(), &places)?;
    add_tables(&mut blocks, &next.geometry, next.second, &places)?;
    let tail = head(&next, log_start(alloc, &next.geometry, &places)?);
    add_pack(&mut blocks, next.side, &tail)?;
    let stored = Stored {
        geometry: next.geometry,
        side: next.side,
        version: next.version,
        second: next.second,
        places,
    };
    Ok(Plan {
        blocks,
        tail,
        stored,
    })
}
