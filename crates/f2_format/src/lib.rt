//! What the bytes of an image mean.
//!
//! This crate has definitions, in `specs/`, and laws about them; no code of it runs. A block is the list of
//! its 4,096 bytes. Each file there has one structure: `Bytes` (numbers and fields), `Geometry` (the parts of an
//! image and the limits of its sizes), `Superblock`, `Pack` and `Seal` (checkpoint packs), `Nat` and `Journal` (the
//! node address table), `Footer`, `Inode` and `Offsets` (nodes), `Dentry` and `Packing` (directories). It says of
//! each structure which part of F2FS it restates.
//!
//! The codecs above read and write a structure by these definitions, and what an image stands for is defined
//! over them. A law is a function here that does nothing: what it ensures is the law.
#![tactic(auto)]

ghost use Rattle.f2_format.specs.Bytes.{NumberElsewhereStays, WrittenNumberReadsBack};
ghost use Rattle.f2_format.specs.Packing.{SublistReachesNoFurther};

/// A number that was written into a block is read from it.
pub fn written_number_reads_back()
    ensures { WrittenNumberReadsBack }
{}

/// Bytes written into a block change no number that has none of them.
pub fn number_elsewhere_stays()
    ensures { NumberElsewhereStays }
{}

/// Names that are left out of a directory never make it reach further, so it takes no more blocks.
pub fn sublist_reaches_no_further()
    ensures { SublistReachesNoFurther }
{}
