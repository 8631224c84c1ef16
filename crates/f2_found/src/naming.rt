//! The names of directories, of a base and of the files that were marked after it.
ghost use Rattle.std.specs.Prelude.{◌≡◌, IfOk, OnOk};
ghost use Rattle.std.specs.FinMap as map;
ghost use Rattle.f2_format.specs.Geometry.{nid_limit};
ghost use Rattle.f2_found.specs.Named.{AreCopiedTo, AreApart, AreAllNamedTo, with_name, with_file};

use crate::copying::copied_names;
use crate::names::FoundNames;
use crate::nids::nid_count;
use f2_layout::Geometry;
use f2_model::{Kind, Name};
use f2_overlay::Rolls;
use f2_recover::Walk;
use std::alloc::{AllocError, Global};

/// The names of the directories of the base.
fn base_names(alloc: Global, g: &Geometry, walk: &Walk) -> Result<FoundNames, AllocError>
    ensures { IfOk result (λ names. AreCopiedTo walk.now.names (nid_limit g.now) names) }
{
    let mut names = FoundNames::new(alloc);
    for directory in 0..nid_count(g) {
        if let Some(known) = walk.names.get(directory) {
            names.put(directory, copied_names(alloc, known)?)?;
        }
    }
    Ok(names)
}

/// Puts the name of a file among those of a directory, where the directory is there.
fn add_name(names: &mut FoundNames, directory: u32, name: Name, ino: u32) -> Result<(), AllocError>
    ensures { OnOk result (names.new ≡ with_name names.old directory name ino) }
{
    if let Some(mut known) = names.take(directory) {
        known.put(name, ino, Kind::Regular)?;
        names.put(directory, known)?;
    }
    Ok(())
}

/// Puts the name of a file that was marked and that the base hasn't; of any other ino nothing.
fn add_file(
    alloc: Global,
    walk: &Walk,
    rolls: &Rolls,
    names: &mut FoundNames,
    ino: u32,
) -> Result<(), AllocError>
    ensures { OnOk result (names.new ≡ with_file names.old ino (map.get rolls.now ino) (map.get walk.now.rows ino)) }
{
    if walk.rows.contains(ino) {
        return Ok(());
    }
    match rolls.get(ino) {
        Some(roll) => add_name(names, roll.parent, roll.name.copy(alloc)?, ino),
        None => Ok(()),
    }
}

/// All names.
pub(crate) fn make_names(
    alloc: Global,
    g: &Geometry,
    walk: &Walk,
    rolls: &Rolls,
) -> Result<FoundNames, AllocError>
    ensures { IfOk result (λ names. AreApart rolls.now walk.now.rows walk.now.names → AreAllNamedTo rolls.now walk.now.rows walk.now.names (nid_limit g.now) (nid_limit g.now) names) }
{
    let mut names = base_names(alloc, g, walk)?;
    for ino in 0..nid_count(g) {
        add_file(alloc, walk, rolls, &mut names, ino)?;
    }
    Ok(names)
}
