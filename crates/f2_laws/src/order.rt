//! The members of a set in their order.
ghost use Rattle.std.specs.Cmp.Lexicographic.{slice_cmp};
ghost use Rattle.std.specs.Ordering.{nat_cmp};
ghost use Rattle.f2_laws.specs.Order.{MembersAreInOrder};
ghost use Rattle.f2_model.specs.State.{pair_cmp};

/// The members of a set of inos, of names, and of pages or nodes of files are told each once and rising, and that is
/// one list only. So the least of them comes first, and names are packed in byte order.
pub fn members_are_in_order()
    ensures inos { MembersAreInOrder nat_cmp }
    ensures names { MembersAreInOrder (slice_cmp nat_cmp) }
    ensures pairs { MembersAreInOrder pair_cmp }
{}
