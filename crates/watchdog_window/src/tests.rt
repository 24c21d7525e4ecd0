//! What no clause says: that a window and observers are made where there is memory.
use crate::{Observers, Window};
use apex_base::{Millis, Name};
use std::test::Fail;

fn moment(number: u64) -> Result<Millis, Fail> {
    match Millis::new(number) {
        Some(moment) => Ok(moment),
        None => Err(Fail::new("a moment is in range")),
    }
}

#[test]
fn a_window_is_full_at_the_fifth_failure_of_a_minute(rt: HostRuntime) -> Result<(), Fail> {
    let mut window = Window::new(rt.alloc())?;
    for at in [0, 15000, 30000, 45000] {
        window.push(moment(at)?);
    }
    assert!(rt; !window.full_since(moment(45000)?, 60000));
    assert!(rt; window.full_with(moment(60000)?, 60000));
    assert!(rt; !window.full_with(moment(60001)?, 60000));
    Ok(())
}

#[test]
fn observers_are_found_by_their_names(rt: HostRuntime) -> Result<(), Fail> {
    let (Some(dog), Some(rb)) = (Name::read(b"dog"), Name::read(b"rb")) else {
        return Err(Fail::new("names are read"));
    };
    let observers = Observers::of(rt.alloc(), &[rb])?;
    assert_eq!(rt; observers.place(&rb), Some(0));
    assert_eq!(rt; observers.place(&dog), None);
    Ok(())
}
