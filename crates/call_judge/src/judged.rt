//! What a call answers, and what it changes.
ghost use Rattle.std.specs.Prelude.{◌≡◌, [], IsTrue, IfOk};
ghost use Rattle.std.specs.Cmp.Lexicographic.{slice_cmp};
ghost use Rattle.std.specs.List.Sorted.{IsStrictlySortedBy};
ghost use Rattle.std.specs.Ordering.{nat_cmp};
ghost use Rattle.row_codec.specs.Batch.{keys_of};
ghost use Rattle.call_judge.specs.declared.judged.Patch.TheVariants.{Nothing, Session, Success, New};

use apex_base::{Boxed, Millis, Record};
use apex_world::Reply;
use row_codec::Row;
use std::alloc::{AllocError, Global};

/// What changes in the tables. Sessions are boxed, so that an answer which changes nothing stays small.
#[derive(Drop)]
pub enum Patch {
    Nothing,
    /// The session at a place is this one.
    Session {
        place: usize,
        session: Boxed<Record>,
    },
    /// The session at a place is this one, and the clock stands at this moment.
    Success {
        place: usize,
        session: Boxed<Record>,
        clock: Millis,
    },
    /// This session comes to stand at a place, and all from there on after it.
    New {
        place: usize,
        session: Boxed<Record>,
    },
}

impl Patch {
    /// The session at a place becomes this one.
    pub(crate) fn session(alloc: Global, place: usize, session: Record) -> Result<Self, AllocError>
        ensures { IfOk result (λ patch. patch ≡ Session place session) }
    {
        let session = Boxed::new(alloc, session)?;
        Ok(Patch::Session { place, session })
    }

    /// The session at a place becomes this one, and the clock moves to this moment.
    pub(crate) fn success(
        alloc: Global,
        place: usize,
        session: Record,
        clock: Millis,
    ) -> Result<Self, AllocError>
        ensures { IfOk result (λ patch. patch ≡ Success place session clock) }
    {
        let session = Boxed::new(alloc, session)?;
        Ok(Patch::Success {
            place,
            session,
            clock,
        })
    }

    /// This session comes to stand at a place.
    pub(crate) fn new(alloc: Global, place: usize, session: Record) -> Result<Self, AllocError>
        ensures { IfOk result (λ patch. patch ≡ New place session) }
    {
        let session = Boxed::new(alloc, session)?;
        Ok(Patch::New { place, session })
    }
}

/// The reply to a call, the rows that it changes, and what it changes in the tables.
#[derive(Drop)]
pub struct Judged {
    pub reply: Reply,
    pub rows: Vec<Row>,
    pub patch: Patch,
}

impl Judged {
    /// Whether nothing changes.
    pub fn changes_nothing(&self) -> bool
        ensures { IsTrue result → (self.now.rows.items ≡ []) × (self.now.patch ≡ Nothing) }
    {
        matches!(self.patch, Patch::Nothing) && self.rows.is_empty()
    }

    /// A reply, and nothing changes.
    #[tactic(auto, using(stored_world::proofs::Batches::none_ascend))]
    pub(crate) fn quiet(alloc: Global, reply: Reply) -> Self
        ensures reply { result.reply ≡ reply }
        ensures rows { result.rows.items ≡ [] }
        ensures patch { result.patch ≡ Nothing }
        ensures ascending { IsStrictlySortedBy (slice_cmp nat_cmp) (keys_of result.rows.items) }
    {
        Judged {
            reply,
            rows: Vec::new(alloc),
            patch: Patch::Nothing,
        }
    }
}
