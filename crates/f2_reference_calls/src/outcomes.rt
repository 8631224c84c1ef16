//! The reply to a call, and the tree after it.
ghost use Rattle.std.specs.Prelude.{◌≡◌, ◌≤◌, IfOk, nat_lt};
ghost use Rattle.std.specs.Bool.{then_some};
ghost use Rattle.f2_model.specs.Call.{outcome, space_refusal, space_wanted};
ghost use Rattle.f2_model.specs.declared.replies.Reply.TheVariants.{NoSpace};
ghost use Rattle.f2_reference_calls.specs.Given.{IsFitting};
ghost use Rattle.f2_spans.specs.Spans.{MOST_SIZE};

use crate::answers::answer;
use crate::copies::copy_tree;
use crate::counts::{data_of_tree, nodes_of_tree};
use crate::effects::effect;
use crate::refusals::refusal;
use f2_model::{Limits, Reply, Request, Space, Tree};
use std::alloc::{AllocError, Global};

/// The refusal of a zone that has to hold `need` blocks and grants fewer.
///
/// A reply can't tell a need of 2^32 or more. A tree that has it takes terabytes, and is answered like want of memory.
fn beyond(space: Space, need: u128, limit: u32) -> Result<Option<Reply>, AllocError>
    ensures { IfOk result (λ refused. refused ≡ then_some (nat_lt limit need) (NoSpace space need limit)) }
{
    if need <= u128::from(limit) {
        return Ok(None);
    }
    let need = u32::try_from(need).map_err(|_| AllocError)?;
    Ok(Some(Reply::NoSpace { space, need, limit }))
}

/// The refusal for want of space, where a tree has more nodes, or else more data blocks, than are granted.
///
/// A reply can't tell a need of 2^32 or more. A tree that has it takes terabytes, and is answered like want of memory.
pub fn space_refusal(
    alloc: Global,
    limits: Limits,
    tree: &Tree,
) -> Result<Option<Reply>, AllocError>
    ensures { IfOk result (λ told. told ≡ space_refusal limits tree.now) }
{
    let nodes = nodes_of_tree(alloc, tree)?;
    if let Some(refused) = beyond(Space::Node, nodes, limits.nodes)? {
        return Ok(Some(refused));
    }
    let blocks = data_of_tree(alloc, tree)?;
    beyond(Space::Data, blocks, limits.data_blocks)
}

/// The refusal of a call for want of space, where the tree after it is given. An fsync and a sync want none for the
/// tree, since they don't change it.
fn space_wanted(
    alloc: Global,
    limits: Limits,
    after: &Tree,
    request: &Request,
) -> Result<Option<Reply>, AllocError>
    ensures { IfOk result (λ told. told ≡ space_wanted limits after.now request.now) }
{
    match request {
        Request::Fsync { .. } | Request::Sync => Ok(None),
        _ => space_refusal(alloc, limits, after),
    }
}

/// The reply to a call, and the tree after it: the first refusal that holds, with an equal tree, or want of space,
/// else what the call gives and does; a new row gets the ino.
pub fn outcome(
    alloc: Global,
    limits: Limits,
    tree: &Tree,
    request: &Request,
    ino: u32,
) -> Result<(Reply, Tree), AllocError>
    requires fitting { IsFitting tree.now }
    requires size { limits.size ≤ MOST_SIZE }
    ensures told { IfOk result (λ told. told ≡ outcome limits tree.now request.now ino) }
    ensures fitting { IfOk result (λ told. IsFitting told.1) }
{
    if let Some(refused) = refusal(limits, tree, request) {
        return Ok((refused, copy_tree(alloc, tree)?));
    }
    let after = effect(alloc, limits, tree, request, ino)?;
    match space_wanted(alloc, limits, &after, request)? {
        Some(refused) => Ok((refused, copy_tree(alloc, tree)?)),
        None => Ok((answer(alloc, tree, request)?, after)),
    }
}
