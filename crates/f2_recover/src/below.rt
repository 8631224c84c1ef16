//! The nodes below an inode, in rising offsets.
ghost use Rattle.std.specs.Prelude.{◌≡◌, ◌≢◌, ℕ, ◌+◌, ◌*◌, ◌<◌, ◌≤◌, Err, Some, IfErr, OnOk};
ghost use Rattle.f2_disk.specs.Meter.{HasFailed};
ghost use Rattle.f2_format.specs.Offsets.{direct_limit, nth_direct, double_indirect, page_limit};
ghost use Rattle.f2_recover.specs.Told.{OnlyReads};
ghost use Rattle.f2_recover.specs.Seeing.{Goes, Fails, IsIndirect, node_limit};

use crate::faults::MountFault;
use crate::nodes::{FileNodes, NodeName, read_node};
use crate::pages::add_page;
use crate::zones::Zones;
use f2_disk::Disk;
use f2_node_block::read_word;
use f2_shape::NODE_SLOTS;

/// The pages that an inode has addresses for.
const INODE_PAGES: u32 = 923;

/// The offset of the double indirect node.
const DOUBLE_INDIRECT: u32 = 2041;

/// The number of the first direct node behind it.
const DOUBLE_NUMBER: u32 = 2038;

/// Reads a direct node, where its nid isn't 0, and its pages' addresses. `number` is its number among the direct nodes.
pub(crate) fn read_direct<D: Disk>(
    disk: &mut D,
    table: &[u32],
    zones: &mut Zones,
    file: &mut FileNodes,
    node: NodeName,
    number: u32,
) -> Result<(), MountFault>
    requires device { zones.old.geom.blocks ≤ (D.meter disk.old).blocks }
    requires number { number < direct_limit }
    requires offset { node.offset ≡ nth_direct number }
    ensures seen { OnOk result (Goes (D.contents disk.old) table.now node (923 + 1018 * number) zones.old file.old (node.offset + 1) (923 + 1018 * (number + 1)) zones.new file.new) }
    ensures geom { OnOk result (zones.new.geom ≡ zones.old.geom) }
    ensures fault { IfErr result (Fails (D.contents disk.old) table.now node (923 + 1018 * number) zones.old file.old) }
    ensures reads { OnlyReads (D.contents disk.old) (D.meter disk.old) (D.contents disk.new) (D.meter disk.new) }
    ensures cause { result ≡ Err MountFault.Read → HasFailed (D.meter disk.old) (D.meter disk.new) }
{
    if node.nid == 0 {
        return Ok(());
    }
    let mut block = [0; 4096];
    read_node(disk, table, zones, file, node, &mut block)?;
    let first = INODE_PAGES + NODE_SLOTS * number;
    for slot in 0..NODE_SLOTS {
        add_page(zones, file, first + slot, read_word(&block, slot as u16))?;
    }
    Ok(())
}

/// Reads an indirect node, where its nid isn't 0, and the direct nodes right behind it. `number` is that of the first of them.
pub(crate) fn read_indirect<D: Disk>(
    disk: &mut D,
    table: &[u32],
    zones: &mut Zones,
    file: &mut FileNodes,
    node: NodeName,
    number: u32,
) -> Result<(), MountFault>
    requires device { zones.old.geom.blocks ≤ (D.meter disk.old).blocks }
    requires indirect { IsIndirect node.offset number }
    ensures seen { OnOk result (Goes (D.contents disk.old) table.now node (923 + 1018 * number) zones.old file.old (node.offset + 1019) (923 + 1018 * (number + 1018)) zones.new file.new) }
    ensures geom { OnOk result (zones.new.geom ≡ zones.old.geom) }
    ensures fault { IfErr result (Fails (D.contents disk.old) table.now node (923 + 1018 * number) zones.old file.old) }
    ensures reads { OnlyReads (D.contents disk.old) (D.meter disk.old) (D.contents disk.new) (D.meter disk.new) }
    ensures cause { result ≡ Err MountFault.Read → HasFailed (D.meter disk.old) (D.meter disk.new) }
{
    if node.nid == 0 {
        return Ok(());
    }
    let mut block = [0; 4096];
    read_node(disk, table, zones, file, node, &mut block)?;
    for slot in 0..NODE_SLOTS {
        let below = NodeName {
            ino: node.ino,
            offset: node.offset + 1 + slot,
            nid: read_word(&block, slot as u16),
        };
        read_direct(disk, table, zones, file, below, number + slot)?;
    }
    Ok(())
}

/// Reads the double indirect node, where its nid isn't 0, and all nodes behind it.
pub(crate) fn read_double<D: Disk>(
    disk: &mut D,
    table: &[u32],
    zones: &mut Zones,
    file: &mut FileNodes,
    node: NodeName,
) -> Result<(), MountFault>
    requires device { zones.old.geom.blocks ≤ (D.meter disk.old).blocks }
    requires offset { node.offset ≡ double_indirect }
    ensures seen { OnOk result (Goes (D.contents disk.old) table.now node (923 + 1018 * 2038) zones.old file.old node_limit page_limit zones.new file.new) }
    ensures geom { OnOk result (zones.new.geom ≡ zones.old.geom) }
    ensures fault { IfErr result (Fails (D.contents disk.old) table.now node (923 + 1018 * 2038) zones.old file.old) }
    ensures reads { OnlyReads (D.contents disk.old) (D.meter disk.old) (D.contents disk.new) (D.meter disk.new) }
    ensures cause { result ≡ Err MountFault.Read → HasFailed (D.meter disk.old) (D.meter disk.new) }
{
    if node.nid == 0 {
        return Ok(());
    }
    let mut block = [0; 4096];
    read_node(disk, table, zones, file, node, &mut block)?;
    for slot in 0..NODE_SLOTS {
        let below = NodeName {
            ino: node.ino,
            offset: DOUBLE_INDIRECT + 1 + slot * (NODE_SLOTS + 1),
            nid: read_word(&block, slot as u16),
        };
        let number = DOUBLE_NUMBER + slot * NODE_SLOTS;
        read_indirect(disk, table, zones, file, below, number)?;
    }
    Ok(())
}
