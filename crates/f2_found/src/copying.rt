//! Copies of what a base and its marks have.
ghost use Rattle.std.specs.Prelude.{◌≡◌, IfOk};
ghost use Rattle.f2_found.specs.Pages.{AreInOrder};
ghost use Rattle.f2_found.specs.Places.{AreBelow};

use crate::pages::FoundPages;
use f2_dir::Dir;
use f2_recover::PageAt;
use std::alloc::{AllocError, Global};

/// The pages of a list. One that can't come behind those before it, or that doesn't stand within so many blocks, isn't taken;
/// no list of an image has such a page.
pub(crate) fn copied_pages(
    alloc: Global,
    list: &[PageAt],
    blocks: u32,
) -> Result<FoundPages, AllocError>
    ensures pages { IfOk result (λ pages. AreInOrder list.now → AreBelow blocks list.now → pages ≡ list.now) }
    ensures within { IfOk result (λ pages. AreBelow blocks pages) }
{
    let mut pages = FoundPages::new(alloc);
    for listed in list {
        if pages.is_next(listed.page) && listed.at < blocks {
            pages.push(*listed)?;
        }
    }
    Ok(pages)
}

/// The names of a directory, each copied once.
pub(crate) fn copied_names(alloc: Global, directory: &Dir) -> Result<Dir, AllocError>
    ensures { IfOk result (λ names. names ≡ directory.now) }
{
    let mut names = Dir::new(alloc);
    for dent in directory.dents()? {
        names.put(dent.name, dent.ino, dent.kind)?;
    }
    Ok(names)
}
