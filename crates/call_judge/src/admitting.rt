//! Whether a submit of one module is admitted: `docs/calls.md`, "Submit". What is judged of a part beside what runs
//! stands in `parting`.
ghost use Rattle.std.specs.Prelude.{◌≡◌, ◌∷◌, []};
ghost use Rattle.apex_base.specs.declared.records.Record.{Record};
ghost use Rattle.apex_base.specs.Answers.{Answers, IsFault};
ghost use Rattle.apex_base.specs.Members.{In};
ghost use Rattle.apex_base.specs.Sessions.{Ascend};
ghost use Rattle.apex_world.specs.Soundness.{checked};
ghost use Rattle.apex_world.specs.Submit.{admitted, is_taken, package_of};
ghost use Rattle.apex_world.specs.World.{World};
ghost use Rattle.call_judge.specs.Submitting.{Show, one_part};

use crate::checked::CheckedModule;
use crate::parting::part_refusal;
use crate::sessions::session_with;
use crate::tables::Tables;
use apex_base::{Boxed, ModuleFault, Record, Refusal, SessionId, Why};
use apex_world::Package;
use std::alloc::Global;

/// The module with its name and version, or the first refusal that needs no new session.
pub(crate) fn admit(
    alloc: Global,
    tables: &Tables,
    id: SessionId,
    part: &CheckedModule,
) -> Result<Package, Why<Refusal>>
    requires ascend { Ascend tables.now.sessions.items }
    requires childless { (r : Record) → In r tables.now.sessions.items → r.children ≡ [] }
    ensures { (w : World) → Show tables.now w → Answers (one_part result) (admitted w id [] (part.now ∷ [])) }
{
    if !id.is_caller_id() {
        return Err(Why::Fault(Refusal::IdRange { id }));
    }
    if is_taken(&tables.sessions, id) {
        return Err(Why::Fault(Refusal::IdTaken { id }));
    }
    let p = packaged(alloc, part)?;
    match part_refusal(
        tables.image.get(),
        &tables.unfinished,
        tables.active.as_slice(),
        &p,
    ) {
        Some(refusal) => Err(Why::Fault(refusal)),
        None => Ok(p),
    }
}

/// Whether a session ever had the id, where no session has children.
#[tactic(auto, using(crate::proofs::Admitted::taken_if_found))]
fn is_taken(sessions: &[Record], id: SessionId) -> bool
    requires ascend { Ascend sessions.now }
    requires childless { (r : Record) → In r sessions.now → r.children ≡ [] }
    ensures { result ≡ is_taken sessions.now id }
{
    session_with(sessions, id).is_some()
}

/// The module with its name and version, where it is sound.
fn packaged(alloc: Global, part: &CheckedModule) -> Result<Package, Why<Refusal>>
    ensures { Answers result (package_of 1 part.now (checked part.now)) }
{
    match part.said() {
        Ok(manifest) => match part.content().share() {
            Ok(content) => Ok(Package {
                name: manifest.name,
                version: manifest.version,
                content,
            }),
            Err(_) => Err(Why::NoMemory),
        },
        Err(fault) => Err(unsound(alloc, *fault.get())),
    }
}

/// That the one part isn't sound, for this fault.
fn unsound(alloc: Global, fault: ModuleFault) -> Why<Refusal>
    ensures { IsFault result (Refusal.Module 1 fault) }
{
    match Boxed::new(alloc, fault) {
        Ok(fault) => Why::Fault(Refusal::Module { part: 1, fault }),
        Err(_) => Why::NoMemory,
    }
}
