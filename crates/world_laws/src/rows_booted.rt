//! What rows are after a boot.
ghost use Rattle.world_laws.specs.RowsBooted.{BootsSettleRows};

/// After a boot of a lawful world, the row at each key is what the rows before it, the sessions before and after it and
/// its order say.
pub fn boots_settle_rows()
    ensures { BootsSettleRows }
{}
