//! The last five moments of a name's failures, or of boots.
ghost use Rattle.std.specs.Prelude.{◌≡◌, ◌∷◌, ◌++◌, [], drop, length, slice_get, IfOk};
ghost use Rattle.std.specs.List.{list_all};
ghost use Rattle.apex_base.specs.Windows.{is_since, last_five};
ghost use Rattle.watchdog_window.specs.Full.{is_full, is_near};

use apex_base::Millis;
use circular_buffer::HeapCircularBuffer;
use std::alloc::{AllocError, Global};
use std::marker::Model;

/// How many moments a window holds.
const MOMENTS: usize = 5;

/// The last five moments, the oldest first. Contracts see it as a list.
#[derive(Drop)]
pub struct Window {
    ring: HeapCircularBuffer<Millis>,
}

impl Model for Window {
    ghost use Rattle.std.specs.Prelude.{◌≡◌, ℕ, List};

    ghost Value = { List ℕ };

    ghost view = { λ window. window.ring.items };

    ghost invariant = { λ window. window.ring.capacity ≡ 5 };
}

impl Window {
    /// A window without moments. It takes all the memory that it will ever need.
    pub fn new(alloc: Global) -> Result<Window, AllocError>
        ensures { IfOk result (λ window. window ≡ []) }
    {
        let ring = HeapCircularBuffer::with_capacity(alloc, MOMENTS)?;
        Ok(Window { ring })
    }

    /// Adds a moment. Of six the oldest goes.
    pub fn push(&mut self, at: Millis)
        ensures { self.new ≡ last_five (self.old ++ at ∷ []) }
    {
        self.ring.push_back(at);
    }

    /// Whether five moments are held, each at most `at` and at most `span` milliseconds before it. Times before 0 count as 0.
    pub fn full_since(&self, at: Millis, span: u64) -> bool
        ensures { result ≡ is_full at span self.now }
    {
        let (front, back) = self.ring.as_slices();
        self.ring.len() >= MOMENTS && are_near(at, span, front) && are_near(at, span, back)
    }

    /// What `full_since` says of the window after a push of `at`.
    pub fn full_with(&self, at: Millis, span: u64) -> bool
        ensures { result ≡ is_full at span (last_five (self.now ++ at ∷ [])) }
    {
        let held = self.ring.len();
        let (front, back) = self.ring.as_slices();
        let (front, back) = without_first(front, back, held.saturating_sub(MOMENTS - 1));
        held + 1 >= MOMENTS && are_near(at, span, front) && are_near(at, span, back)
    }

    /// Forgets all moments.
    pub fn clear(&mut self)
        ensures { self.new ≡ [] }
    {
        self.ring.clear();
    }

    /// The moment at a place, the oldest at 0; None past the last.
    pub fn get(&self, place: usize) -> Option<Millis>
        ensures { result ≡ slice_get self.now place }
    {
        self.ring.get(place).copied()
    }
}

/// Two slices, one after the other, without their first items.
fn without_first<'a>(
    front: &'a [Millis],
    back: &'a [Millis],
    count: usize,
) -> (&'a [Millis], &'a [Millis])
    ensures { result.0.now ++ result.1.now ≡ drop count (front.now ++ back.now) }
{
    let first = count.min(front.len());
    let second = (count - first).min(back.len());
    (&front[first..], &back[second..])
}

fn are_near(now: Millis, span: u64, moments: &[Millis]) -> bool
    ensures { result ≡ list_all (is_near now span) moments.now }
{
    moments
        .iter()
        .all(|m| m.number() <= now.number() && is_since(now, span, *m))
}

/// Whether a moment is at most so many milliseconds before another.
fn is_since(now: Millis, span: u64, moment: Millis) -> bool
    ensures { result ≡ is_since now span moment }
{
    now.number().saturating_sub(span) <= moment.number()
}
