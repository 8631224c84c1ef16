//! What a running volume keeps on its disk: how the contents of the disk, the state of the abstract machine and what the
//! volume knows of places go together, one block at a time.
//!
//! No program runs this crate. Its definitions stand in `specs/`, one file a topic: `Places` (where the nodes and the
//! data blocks of a tree stand) and `Trees` (a tree at its places, in an image and on a disk); `Layout` (what the volume
//! knows of the log), `Bases` (the last checkpoint, and a pending one), `Logs` (the node log since then), `Numbers`
//! (whose a nid and a data block are), `Marks` (the rows of fsyncs) and `Stored` (all of it together); `Changes` (what
//! events do to a disk and to what is known of it); `Kept` and `Whole` (what a running volume keeps, in two steps). The laws
//! about them stand in `f2_stored_laws`, `f2_change_laws` and `f2_place_laws`.
#![tactic(auto)]
