//! What a scan tells of an image with a checkpoint.

ghost use Rattle.f2_scan.specs.Laws.{BadInodesAreBad, LogsAreChains, LongChainsAreLong, OutOfZonesAreOut, RightLogsHaveNoFault};

/// A scan from where a checkpoint says, with the version that it says, finds the chain of the image; a right log means
/// that no condition of the node log stands; and each fault is the condition of its name.
pub fn scans_tell()
    ensures chain { LogsAreChains }
    ensures sound { RightLogsHaveNoFault }
    ensures chain_long { LongChainsAreLong }
    ensures bad_inode { BadInodesAreBad }
    ensures out_of_zone { OutOfZonesAreOut }
{}
