//! Calls whose modules are checked, before a core does them. What a call is to do stands in `judging`.
ghost use Rattle.std.specs.Prelude.{◌≡◌, ◌∷◌, [], None, Some, IfOk, IfSome, option_map};
ghost use Rattle.apex_world.specs.declared.calls.Call.TheVariants as calls;
ghost use Rattle.call_judge.specs.declared.prepared.CheckedCall.TheVariants.{Other};
ghost use Rattle.call_judge.specs.Prepared.{call_of};

use crate::checked::CheckedModule;
use apex_base::{Boxed, Bytes, Listed, Millis, Name, Reason, SessionId};
use apex_world::{Call, IdList, ModuleList, NameList, SharedModule};
use std::alloc::{AllocError, Global};
use std::marker::Model;

/// A submit, each of its modules with what its check gave.
#[derive(Drop)]
pub struct CheckedSubmit {
    pub(crate) id: SessionId,
    pub(crate) children: IdList,
    pub(crate) rollback: bool,
    pub(crate) parts: Listed<CheckedModule>,
}

/// A call that no line makes yet. It has no module.
#[derive(Drop)]
pub enum OtherCall {
    Revert,
    Commit {
        id: SessionId,
    },
    Put {
        name: Name,
        key: Name,
        value: Bytes,
    },
    Drop {
        name: Name,
        key: Name,
    },
    Get {
        name: Name,
        key: Name,
    },
    Watch {
        time: Millis,
        observer: Name,
        duration: Millis,
        names: NameList,
    },
    Report {
        time: Millis,
        name: Name,
        reason: Reason,
    },
}

/// A call whose modules are checked. The calls that lines make have small forms.
#[derive(Drop)]
pub enum CheckedCall {
    Submit(Boxed<CheckedSubmit>),
    Ready { id: SessionId },
    Abort { id: SessionId },
    Success { time: Millis, id: SessionId },
    StateOf { id: SessionId },
    Other(Boxed<OtherCall>),
}

/// A call whose modules are checked, or what says that there was no memory for it. A contract sees the call, or None.
#[derive(Drop)]
pub struct Prepared {
    checked: Option<CheckedCall>,
}

impl Model for Prepared {
    ghost use Rattle.std.specs.Prelude.{Option, option_map};
    ghost use Rattle.std.specs.Ordering.{nat_cmp};
    ghost use Rattle.std.specs.Cmp.Lexicographic.{slice_cmp};
    ghost use Rattle.std.specs.Coded.{codes, coded_list, coded_ℕ};
    ghost use Rattle.std.specs.FinMap as fin;
    ghost use Rattle.apex_world.specs.declared.calls.Call.{Call};
    ghost use Rattle.call_judge.specs.Prepared.{call_of};

    ghost Value = { Option Call };

    ghost coded = { Prim.hlevel (codes, fin.code {R = slice_cmp nat_cmp} (coded_list coded_ℕ) (coded_list coded_ℕ)) };

    ghost view = { λ prepared. option_map call_of prepared.checked };
}

impl Prepared {
    /// Ready, which has no module to check: the same as `prepare` of it, without a `Call` in between. So it is with the
    /// next three.
    pub fn ready(id: SessionId) -> Self
        ensures { result ≡ Some (calls.Ready id) }
    {
        Prepared {
            checked: Some(CheckedCall::Ready { id }),
        }
    }

    /// Abort.
    pub fn abort(id: SessionId) -> Self
        ensures { result ≡ Some (calls.Abort id) }
    {
        Prepared {
            checked: Some(CheckedCall::Abort { id }),
        }
    }

    /// Success.
    pub fn success(time: Millis, id: SessionId) -> Self
        ensures { result ≡ Some (calls.Success time id) }
    {
        Prepared {
            checked: Some(CheckedCall::Success { time, id }),
        }
    }

    /// State.
    pub fn state_of(id: SessionId) -> Self
        ensures { result ≡ Some (calls.StateOf id) }
    {
        Prepared {
            checked: Some(CheckedCall::StateOf { id }),
        }
    }

    /// A submit of one module without children, as `prepare` makes it. Where memory runs out, the value says so.
    pub fn submit(alloc: Global, id: SessionId, rollback: bool, part: SharedModule) -> Self
        ensures { IfSome result (λ c. c ≡ calls.Submit id [] rollback (part ∷ [])) }
    {
        Prepared {
            checked: check_one(alloc, id, rollback, part).ok(),
        }
    }

    /// That there was no memory for the call.
    pub fn without_memory() -> Self
        ensures { result ≡ None }
    {
        Prepared { checked: None }
    }

    /// The call, unless there was no memory for it.
    pub fn into_call(self) -> Option<CheckedCall>
        ensures { option_map call_of result ≡ self }
    {
        self.checked
    }
}

/// Checks the modules of a submit, and keeps what the manifest of each says, or its first fault. Any other call it keeps as
/// it is. Where memory runs out, the value says so.
pub fn prepare(alloc: Global, call: Call) -> Prepared
    ensures { IfSome result (λ c. c ≡ call) }
{
    Prepared {
        checked: check_call(alloc, call).ok(),
    }
}

fn check_call(alloc: Global, call: Call) -> Result<CheckedCall, AllocError>
    ensures { IfOk result (λ c. call_of c ≡ call) }
{
    match call {
        Call::Ready { id } => Ok(CheckedCall::Ready { id }),
        Call::Abort { id } => Ok(CheckedCall::Abort { id }),
        Call::Success { time, id } => Ok(CheckedCall::Success { time, id }),
        Call::StateOf { id } => Ok(CheckedCall::StateOf { id }),
        Call::Submit {
            id,
            children,
            rollback,
            parts,
        } => {
            let parts = check_parts(alloc, parts)?;
            let submit = CheckedSubmit {
                id,
                children,
                rollback,
                parts,
            };
            Ok(CheckedCall::Submit(Boxed::new(alloc, submit)?))
        }
        Call::Revert => other(alloc, OtherCall::Revert),
        Call::Commit { id } => other(alloc, OtherCall::Commit { id }),
        Call::Put { name, key, value } => other(alloc, OtherCall::Put { name, key, value }),
        Call::Drop { name, key } => other(alloc, OtherCall::Drop { name, key }),
        Call::Get { name, key } => other(alloc, OtherCall::Get { name, key }),
        Call::Watch {
            time,
            observer,
            duration,
            names,
        } => {
            let watch = OtherCall::Watch {
                time,
                observer,
                duration,
                names,
            };
            other(alloc, watch)
        }
        Call::Report { time, name, reason } => {
            other(alloc, OtherCall::Report { time, name, reason })
        }
    }
}

/// A submit of one module without children, its module checked.
fn check_one(
    alloc: Global,
    id: SessionId,
    rollback: bool,
    part: SharedModule,
) -> Result<CheckedCall, AllocError>
    ensures { IfOk result (λ c. call_of c ≡ calls.Submit id [] rollback (part ∷ [])) }
{
    let checked = CheckedModule::of(alloc, part)?;
    let submit = CheckedSubmit {
        id,
        children: Listed::new(alloc),
        rollback,
        parts: Listed::one(alloc, checked)?,
    };
    Ok(CheckedCall::Submit(Boxed::new(alloc, submit)?))
}

fn other(alloc: Global, call: OtherCall) -> Result<CheckedCall, AllocError>
    ensures { IfOk result (λ c. c ≡ Other call) }
{
    Ok(CheckedCall::Other(Boxed::new(alloc, call)?))
}

/// The modules, each checked.
fn check_parts(alloc: Global, parts: ModuleList) -> Result<Listed<CheckedModule>, AllocError>
    ensures { IfOk result (λ checked. checked ≡ parts) }
{
    let contents = parts.into_vec();
    let mut checked = Vec::with_capacity(alloc, contents.len())?;
    for content in contents {
        checked.push(CheckedModule::of(alloc, content)?)?;
    }
    Ok(Listed::of(checked))
}
