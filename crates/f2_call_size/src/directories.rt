//! What a change of a directory's names changes in its size.
ghost use Rattle.std.specs.Prelude.{◌≡◌, IfOk};
ghost use Rattle.std.specs.Option.{option_copied};
ghost use Rattle.f2_held.specs.Sums.{IsSmall, of_blocks};
ghost use Rattle.f2_call_size.specs.Calls.{ChangesNames};
ghost use Rattle.f2_call_size.specs.Sizes.{IsDifference, IsSmallChange};

use crate::first_pages::nodes_of_first;
use crate::sizes::CallSize;
use f2_files::Files;
use f2_held::Both;
use f2_model::Name;
use std::alloc::AllocError;

/// The most blocks of a directory, far beyond those for which there could be memory.
const MOST_BLOCKS: u64 = 1 << 29;

/// What a directory of so many blocks takes. A directory of more than 2^29 blocks counts as want of memory.
fn size_of_blocks(blocks: u64) -> Result<Both, AllocError>
    ensures size { IfOk result (λ size. size ≡ of_blocks blocks) }
    ensures small { IfOk result IsSmall }
{
    if blocks > MOST_BLOCKS {
        return Err(AllocError);
    }
    Ok(Both {
        nodes: nodes_of_first(blocks),
        pages: blocks,
    })
}

/// How one number grows to another, and how it shrinks.
fn change(before: Both, after: Both) -> CallSize
    requires before { IsSmall before }
    requires after { IsSmall after }
    ensures difference { IsDifference before after result }
    ensures small { IsSmallChange result }
{
    CallSize {
        added: Both {
            nodes: after.nodes.saturating_sub(before.nodes),
            pages: after.pages.saturating_sub(before.pages),
        },
        gone: Both {
            nodes: before.nodes.saturating_sub(after.nodes),
            pages: before.pages.saturating_sub(after.pages),
        },
    }
}

/// What a directory adds or frees when a name leaves it and another one comes, which may be there already.
///
/// It goes over the names of that directory twice. A directory of more than 2^29 blocks counts as want of memory.
pub(crate) fn change_of_names(
    files: &Files,
    directory: u32,
    gone: Option<&Name>,
    come: Option<&Name>,
) -> Result<CallSize, AllocError>
    ensures change { IfOk result (ChangesNames files.now directory (option_copied gone.entry) (option_copied come.entry)) }
    ensures small { IfOk result IsSmallChange }
{
    let before = size_of_blocks(files.blocks_after(directory, None, None))?;
    let after = size_of_blocks(files.blocks_after(directory, gone, come))?;
    Ok(change(before, after))
}
