//! The names of a base.
ghost use Rattle.f2_image_laws.specs.Named.{RowsHaveDentries, DentriesAreNames};

/// Each name of a row of a base has a dentry, in the directory of the base that it is a name in.
/// Each dentry of a directory of the base is such a name.
pub fn names_are_dentries()
    ensures rows { RowsHaveDentries }
    ensures dentries { DentriesAreNames }
{}
