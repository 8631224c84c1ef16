//! Calls that change files.
ghost use Rattle.std.specs.Prelude.{◌≡◌, ◌⊎◌, ◌↔◌, IfOk, IfErr, OnErr, IsTrue};
ghost use Rattle.f2_model.specs.declared.replies.Reply.TheVariants.{Memory};
ghost use Rattle.f2_flat.specs.Calls.{IsRefused};
ghost use Rattle.f2_flat.specs.Flat.{IsFlat};
ghost use Rattle.f2_core.specs.Changes.{IsChange, IsChanged};

use f2_flat::Files;
use f2_layout::Geometry;
use f2_model::{Reply, Request};

/// A call on files. It gives the ino of the row that it added, where it added one, or the refusal. A refusal leaves the
/// files, and want of memory is one.
pub(crate) fn change_files(
    files: &mut Files,
    geometry: &Geometry,
    request: &Request,
) -> Result<Option<u32>, Reply>
    requires flat { IsFlat geometry.now files.old }
    requires change { IsChange request.now }
    ensures changed { IfOk result (IsChanged geometry.now files.old files.new request.now) }
    ensures refused { IfErr result (λ refused. (refused ≡ Memory) ⊎ IsRefused geometry.now files.old request.now refused) }
    ensures kept { OnErr result (files.new ≡ files.old) }
    ensures flat { IsFlat geometry.now files.new }
{
    match request {
        Request::Create { path } => {
            let ino = files.create(geometry, path)?;
            Ok(Some(ino))
        }
        Request::Write { path, pieces } => {
            files.write(geometry, path, pieces.as_slice())?;
            Ok(None)
        }
        _ => unreachable!(),
    }
}

/// Whether a call was refused for want of memory. The history keeps nothing of such a call.
pub(crate) fn is_memory(refusal: &Reply) -> bool
    ensures { IsTrue result ↔ (refusal.now ≡ Memory) }
{
    matches!(refusal, Reply::Memory)
}
