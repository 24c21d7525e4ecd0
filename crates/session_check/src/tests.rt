//! What no clause says: with ample memory there is an answer.
ghost use Rattle.std.specs.Prelude.{◌≡◌, IfOk};

use crate::are_lawful;
use apex_base::{
    Kind, Listed, Millis, Name, Part, Print, Record, SessionId, State, Target, Version,
};
use std::alloc::Global;
use std::test::Fail;

fn session(alloc: Global, id: u32, state: State, activation: u32) -> Result<Record, Fail>
    ensures { IfOk result (λ r. r.id.0 ≡ id) }
{
    let name = Name::read(b"a").ok_or("a name")?;
    let version = Version::new(1).ok_or("a version")?;
    let print = Print::read(b"P").ok_or("a fingerprint")?;
    let id = SessionId(id);
    let part = Part {
        name,
        version: Some(version),
        target: Target::Module {
            session: id,
            part: 0,
            version,
        },
    };
    Ok(Record {
        id,
        children: Listed::new(alloc),
        kind: Kind::Plain,
        parts: Listed::one(alloc, part)?,
        print,
        state,
        cause: None,
        activation,
        rollback: None,
        moment: Millis::zero(),
    })
}

#[test]
fn a_session_may_follow_one_that_succeeded(rt: HostRuntime) -> Result<(), Fail> {
    let first = session(rt.alloc(), 1, State::Success, 2)?;
    let second = session(rt.alloc(), 2, State::Activated, 3)?;
    let sessions = [first, second];
    assert_eq!(rt; are_lawful(rt.alloc(), &sessions, 3), Ok(true));
    assert_eq!(rt; are_lawful(rt.alloc(), &sessions, 2), Ok(false));
    Ok(())
}

#[test]
fn two_unfinished_sessions_share_no_name(rt: HostRuntime) -> Result<(), Fail> {
    let first = session(rt.alloc(), 1, State::Staged, 0)?;
    let second = session(rt.alloc(), 2, State::Activated, 3)?;
    assert_eq!(rt; are_lawful(rt.alloc(), &[first, second], 3), Ok(false));
    Ok(())
}
