//! Rows against what an image grants.
ghost use Rattle.f2_laws.specs.Room.{RowsTakeNodes, FreeInoIsThere};

/// An image that isn't short of nodes isn't short of inos: a call that adds a row always finds one.
pub fn free_ino_is_there()
    ensures nodes { RowsTakeNodes }
    ensures free { FreeInoIsThere }
{}
