//! Laws of windows: what the last five moments say is what all of them say.
ghost use Rattle.watchdog_window.specs.Full.{FailuresAreTold, LoopsAreTold};

/// If a name's failures don't fall, its last five say at the last one whether there are five within a minute.
pub fn windows_tell_failures()
    ensures { FailuresAreTold }
{}

/// The last five boots say whether there are five within ten minutes, also if their moments fall.
pub fn windows_tell_loops()
    ensures { LoopsAreTold }
{}
