//! Calls on good trees.
ghost use Rattle.f2_laws.specs.Goodness.{CallsKeepTreesGood};

/// Each call leaves a good tree good: one root, each row in a directory under a name of its own, none
/// too deep or too long, and no byte past the end of a file.
pub fn calls_keep_trees_good()
    ensures { CallsKeepTreesGood }
{}
