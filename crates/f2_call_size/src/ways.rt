//! The nodes on the way to a page.
ghost use Rattle.std.specs.Prelude.{◌≡◌, ◌∷◌};
ghost use Rattle.f2_format.specs.Offsets.{nodes_of_page};
ghost use Rattle.f2_shape.specs.Routes.{four_places};

use f2_shape::path_of;

/// The offsets of the nodes on the way to a page, the inode's first; 0 at the places that the way doesn't use.
///
/// A page that no file can have needs the inode alone.
pub(crate) fn way_to(page: u32) -> [u32; 4]
    ensures { result ≡ four_places (0 ∷ nodes_of_page page) }
{
    match path_of(u64::from(page)) {
        Some(route) => route.nodes,
        None => [0; 4],
    }
}
