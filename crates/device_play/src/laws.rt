//! What each status of a run means, whatever its script. The contract of `apex_play` speaks of `IsSilent`, `IsRefused` and
//! `HasBadLine`; these laws say what the three words hold and rule out, status by status.
ghost use Rattle.std.specs.Prelude.{◌≡◌, ℕ, List, Err, Some};
ghost use Rattle.device_script.specs.declared.fault.LineFault.{LineFault};
ghost use Rattle.device_script.specs.declared.fault.ScriptWhy.{ScriptWhy};
ghost use Rattle.device_script.specs.Script.{script_of};
ghost use Rattle.device_play.specs.declared.status.Status.TheVariants.{Done, Usage, Script, SourceFault, SinkFault, Memory};
ghost use Rattle.device_script.specs.declared.fault.ScriptWhy.TheVariants.{Bad};
ghost use Rattle.device_play.specs.Headline.{HasBadLine, IsRefused, IsSilent};

/// Done is reported of no bytes that are no script.
pub fn done_runs_have_a_script()
    ensures { (why : ScriptWhy) → IsRefused Done why → ⊥ }
{}

/// A run with a usage error puts nothing and has no turns.
pub fn usage_errors_are_silent()
    ensures { IsSilent Usage }
{}

/// A bad script is reported with its first bad line and why; nothing is put, and there are no turns.
pub fn bad_scripts_are_reported()
    ensures silent { (line : ℕ) (why : LineFault) → IsSilent (Script line why) }
    ensures reason { (line : ℕ) (why : LineFault) (reason : ScriptWhy) → IsRefused (Script line why) reason → reason ≡ Bad line why }
    ensures bytes { (bytes : List ℕ) (line : ℕ) (why : LineFault) → HasBadLine (Some bytes) (Script line why) → script_of bytes ≡ Err (Bad line why) }
{}

/// A run whose source failed puts nothing and has no turns.
pub fn source_faults_are_silent()
    ensures { IsSilent SourceFault }
{}

/// A fault of the sink is reported of no bytes that are no script.
pub fn sink_faults_have_a_script()
    ensures { (why : ScriptWhy) → IsRefused SinkFault why → ⊥ }
{}

/// A run that ran out of memory isn't said to be silent: it may have put a front of its text.
pub fn out_of_memory_is_not_silent()
    ensures { IsSilent Memory → ⊥ }
{}
