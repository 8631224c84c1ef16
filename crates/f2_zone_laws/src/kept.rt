//! How many addresses a zone keeps.
ghost use Rattle.f2_zone_laws.specs.Kept.{KeptNodesFit, KeptPagesFit, FoundNodesFit, FoundPagesFit};

/// What the zone of node blocks keeps while a volume runs fits a third of it. Were blocks of the node log kept as well,
/// a zone could keep two thirds, and the log would have no room.
pub fn kept_nodes_fit()
    ensures { KeptNodesFit }
{}

/// What the zone of data blocks keeps while a volume runs fits a third of it. Were the pages of marks kept as well, a
/// zone could keep two thirds.
pub fn kept_pages_fit()
    ensures { KeptPagesFit }
{}

/// The nodes of the base and the blocks of the node log that a mount finds fit two thirds of the zone. Were any block
/// of the zone found that carries the log's version, also one that the log doesn't lead to, they could fill it.
pub fn found_nodes_fit()
    ensures { FoundNodesFit }
{}

/// The pages of the base and of its marks that a mount finds fit two thirds of the zone. Were the pages found that
/// direct nodes of the log name which no mark counts, they could fill it.
pub fn found_pages_fit()
    ensures { FoundPagesFit }
{}
