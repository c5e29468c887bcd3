//! Laws of the groups in which held locks lie. Each function is a theorem, and does nothing.

ghost use Rattle.wit_model.specs.GroupLaws.{GroupsMakeChains, GroupsAreShort, GroupsAreTidy};
ghost use Rattle.wit_model.specs.GroupLaws.{ChunksAddUp};

/// The groups of a seat's held locks of one kind, joined in order, are its chain.
pub fn law_groups_make_chains()
    ensures { GroupsMakeChains }
{}

/// No group has more than five locks, and none is empty unless it is the only one.
pub fn law_groups_are_tidy()
    ensures short { GroupsAreShort }
    ensures tidy { GroupsAreTidy }
{}

/// The free chunks and those of all seats make up the number of chunks: `Exhausted` comes only
/// where none is left.
pub fn law_chunks_add_up()
    ensures { ChunksAddUp }
{}
