//! Boots lead from lawful worlds to worlds that run, and calls keep worlds running.
ghost use Rattle.world_laws.specs.Invariance.{BootsLeadToRunning, CallsKeepRunning};

/// A boot of a lawful world, by an order that such a world can have, leads to a world that runs, and so to a lawful one.
pub fn boots_lead_to_running()
    ensures { BootsLeadToRunning }
{}

/// Each call whose values are within the ranges of their types keeps a running world running: lawful, with an image that
/// has each name that is activated, rolled back, watched or has data, and with counted failures in their order.
pub fn calls_keep_running()
    ensures { CallsKeepRunning }
{}
