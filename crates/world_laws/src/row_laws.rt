//! What the rows of lawful worlds open to, and what the rows of data weigh: `docs/rows.md`.
ghost use Rattle.world_laws.specs.RowLaws.{DataRowsWeighTheData, OpenedHasTheRows, OpenedIsLawful, SameRowsStoreAlike, StoredAlikeHasSameRows};

/// The rows of a name's data weigh as much as that data.
pub fn data_rows_weigh_the_data()
    ensures { DataRowsWeighTheData }
{}

/// The world that the rows of a lawful world open to is lawful, and has these rows.
pub fn rows_open_to_their_world()
    ensures lawful { OpenedIsLawful }
    ensures rows { OpenedHasTheRows }
{}

/// Lawful worlds have the same rows where the same is stored of them, and nowhere else.
pub fn same_rows_store_the_same()
    ensures stored { SameRowsStoreAlike }
    ensures rows { StoredAlikeHasSameRows }
{}
