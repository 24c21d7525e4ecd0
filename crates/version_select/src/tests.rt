//! What no clause says: that the call succeeds, and a worked selection.
use super::*;
use apex_base::{Name, Version};
use std::test::*;

fn candidate(
    name: &[u8],
    version: u64,
    place: Place,
    usable: bool,
) -> Result<Candidate, &'static str> {
    let name = Name::read(name).ok_or("the name is one")?;
    let version = Version::new(version).ok_or("the version is one")?;
    Ok(Candidate {
        name,
        version,
        place,
        usable,
    })
}

#[test]
fn the_best_usable_of_each_name(rt: HostRuntime) -> Result<(), Fail> {
    // `b` has a newer module on data, `c` an equal one, `a` one that isn't usable, and `d` none that is.
    let candidates = [
        candidate(b"b", 1, Place::Pre, true)?,
        candidate(b"c", 4, Place::Pre, true)?,
        candidate(b"c", 4, Place::Data, true)?,
        candidate(b"b", 2, Place::Data, true)?,
        candidate(b"a", 9, Place::Data, false)?,
        candidate(b"a", 3, Place::Pre, true)?,
        candidate(b"d", 1, Place::Pre, false)?,
    ];
    let picks = select(rt.alloc(), &candidates)
        .ok()
        .ok_or("there is memory")?;
    let expected: [(&[u8], Option<(u64, Place)>); 4] = [
        (b"a", Some((3, Place::Pre))),
        (b"b", Some((2, Place::Data))),
        (b"c", Some((4, Place::Data))),
        (b"d", None),
    ];
    assert_eq!(rt; picks.len(), expected.len());
    for (pick, (name, chosen)) in picks.iter().zip(expected) {
        assert_eq!(rt; pick.name.as_bytes(), name);
        assert!(rt;
            pick.chosen
                .map(|(version, place)| (version.number(), place))
                == chosen
        );
    }
    Ok(())
}

#[test]
fn no_candidates_no_picks(rt: HostRuntime) {
    assert!(rt; matches!(select(rt.alloc(), &[]), Ok(picks) if picks.is_empty()));
}
