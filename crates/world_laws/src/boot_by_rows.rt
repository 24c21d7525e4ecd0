//! A boot without observers goes by rows.
ghost use Rattle.world_laws.specs.BootByRows.{BootsGoByRows};

/// A boot of a lawful world without observers replies, and leads to sessions and rows, as the rows, the sessions and
/// the last five moments before it say. Of the files of modules it looks at keys alone.
pub fn boots_go_by_rows()
    ensures { BootsGoByRows }
{}
