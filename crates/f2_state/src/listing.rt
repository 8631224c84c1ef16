//! What a list finds.
ghost use Rattle.std.specs.Prelude.{◌≡◌, true, None, IfOk};
ghost use Rattle.f2_image_laws.specs.Rolled.{image_limits};
ghost use Rattle.f2_model.specs.Call.{answer, refusal};
ghost use Rattle.f2_model.specs.State.{State};
ghost use Rattle.f2_model.specs.declared.requests.Request.TheVariants as requests;
ghost use Rattle.f2_state.specs.Standing.{StandsIn, is_between};

use crate::volume::Volume;
use f2_disk::Disk;
use f2_model::{Path, Reply};
use std::alloc::AllocError;

impl<D: Disk> Volume<D> {
    /// The names in the directory at the end of a path, in byte order. The path is one that a list isn't refused for.
    pub(crate) fn list(&self, path: &Path) -> Result<Reply, AllocError>
        ensures { IfOk result (λ told. (from : State) → StandsIn (D.contents self.now.disk) self.now from → is_between from ≡ true → refusal (image_limits self.now.geometry) from.live (requests.List path.now) ≡ None
            → told ≡ answer from.live (requests.List path.now)) }
    {
        match self.files.walk(path.as_slice()) {
            Ok(ino) => {
                let names = self.files.names(ino)?;
                Ok(Reply::Names(names))
            }
            Err(refused) => Ok(refused),
        }
    }
}
