//! The direct nodes that pages stand in.
ghost use Rattle.std.specs.Prelude.{◌≡◌, IfOk};
ghost use Rattle.f2_model.specs.State as machine;

use f2_shape::direct_of;
use std::alloc::{AllocError, Global};

/// The direct nodes that pages stand in.
pub(crate) fn directs_of(alloc: Global, pages: &[u32]) -> Result<Vec<u32>, AllocError>
    ensures { IfOk result (λ offsets. offsets.items ≡ machine.directs_of pages.now) }
{
    pages
        .iter()
        .filter_map(|page| direct_of(u64::from(*page)))
        .collect(alloc)
}
