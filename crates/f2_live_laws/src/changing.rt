//! Changes of the live tree in memory alone.
ghost use Rattle.f2_live_laws.specs.Changing.{ChangesInMemoryKeepLive};

/// A change in memory alone keeps the live tree at its places, where what isn't to be written would be written as before.
pub fn changes_in_memory_keep_live()
    ensures { ChangesInMemoryKeepLive }
{}
