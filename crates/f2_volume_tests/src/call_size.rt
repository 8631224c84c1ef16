//! What calls on the root alone add and take.
ghost use Rattle.f2_call_size.specs.Sizes.{IsWithin};

use f2_call_size::size_of_call;
use f2_files::Files;
use f2_model::{Name, Path, Request};
use std::alloc::Global;
use std::test::Fail;

/// The path of a name in the root.
fn in_root(alloc: Global, name: &[u8]) -> Result<Path, Fail> {
    let name = Name::from_slice(alloc, name)?;
    Ok(Path::from_vec(vec![in alloc; name]?))
}

/// The nodes and the data blocks that a call adds, and those that go.
fn told(alloc: Global, request: Request) -> Result<[u64; 4], Fail>
    requires { IsWithin request }
{
    let files = Files::root_alone(alloc)?;
    let size = size_of_call(alloc, &files, &request)?;
    Ok([
        size.added.nodes,
        size.added.pages,
        size.gone.nodes,
        size.gone.pages,
    ])
}

#[test]
fn all_of_call_size(rt: HostRuntime) -> Result<(), Fail> {
    let alloc = rt.alloc();
    let path = in_root(alloc, b"a")?;
    assert_eq!(rt; told(alloc, Request::Create { path })?, [1, 1, 0, 0]);
    let path = in_root(alloc, b"a")?;
    assert_eq!(rt; told(alloc, Request::Mkdir { path })?, [1, 1, 0, 0]);
    assert_eq!(rt; told(alloc, Request::Sync)?, [0, 0, 0, 0]);
    Ok(())
}
