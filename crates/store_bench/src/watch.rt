//! The time that a piece of work takes.
use std::io;
use std::rt::Clock;
use std::time::{CpuClock, Duration, Instant};

#[derive(Clone, Copy)]
pub struct Watch {
    start: Instant,
    spent: Duration,
}

impl Watch {
    pub fn start(rt: &(impl Clock + CpuClock)) -> io::Result<Self> {
        Ok(Watch {
            start: Instant::now(rt)?,
            spent: rt.process_cpu_time()?,
        })
    }

    /// Writes the microseconds since the start to standard error: those of the clock, and of processor time.
    pub fn report(&self, rt: &(impl Clock + CpuClock + Eprint)) -> io::Result<()> {
        let time = self.start.elapsed(rt)?.as_micros();
        let spent = rt
            .process_cpu_time()?
            .saturating_sub(self.spent)
            .as_micros();
        eprintln!(rt; "{time} {spent}")
    }
}
