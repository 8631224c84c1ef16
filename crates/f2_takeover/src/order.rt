//! An order in which the rows of a tree may be added one by one.
ghost use Rattle.std.specs.Prelude.{◌+◌, ◌<◌, IfOk, OnOk};
ghost use Rattle.f2_takeover.specs.Orders.{IsRooted, IsInOrder, AreInos, AreListedTo};

use crate::rows::TakenRows;
use std::alloc::{AllocError, Global};

/// How many depths a row may stand at: a file stands 16 names below the root at most.
const DEPTHS: u32 = 17;

/// Appends the inos of the rows that stand so deep, rising.
fn push_level(
    rows: &TakenRows,
    inos: &[u32],
    depth: u32,
    order: &mut Vec<u32>,
) -> Result<(), AllocError>
    requires { depth < 17 }
    ensures { OnOk result (AreInos rows.now inos.now → AreListedTo rows.now inos.now depth 0 order.old.items → AreListedTo rows.now inos.now (depth + 1) 0 order.new.items) }
{
    for ino in inos {
        if let Some(row) = rows.get(*ino) {
            if row.depth == depth {
                order.push(*ino)?;
            }
        }
    }
    Ok(())
}

/// The inos of rows that hang together, in an order in which they may be added one by one: each directory comes before what
/// is in it. The rows are gone over once for each depth that there can be.
pub fn in_order(alloc: Global, rows: &TakenRows) -> Result<Vec<u32>, AllocError>
    ensures { IfOk result (λ order. IsRooted rows.now → IsInOrder rows.now order.items) }
{
    let inos = rows.inos(alloc)?;
    let mut order = Vec::with_capacity(alloc, inos.len())?;
    for depth in 0..DEPTHS {
        push_level(rows, &inos, depth, &mut order)?;
    }
    Ok(order)
}
