//! The segments of a boot. Most are one call outside lane blocks, and take 16 bytes.
ghost use Rattle.std.specs.Prelude.{◌≡◌, ◌++◌, ◌∷◌, [], map, OnOk};
ghost use Rattle.apex_world.specs.Calls.{call_at};
ghost use Rattle.apex_world.specs.Segments.{segment_at, segment_of, single_submit};

use crate::{Call, CallRef, Segment, SharedModule};
use apex_base::{Millis, SessionId};
use std::alloc::{AllocError, Global};
use std::marker::Model;
use std::mem::size_of;
use std::slice;

/// A submit of one part without children, outside lane blocks.
#[derive(Drop)]
pub struct SingleSubmit {
    pub id: SessionId,
    pub rollback: bool,
    pub part: SharedModule,
}

/// How a segment is kept in memory. The common calls outside lane blocks have forms of their own.
#[derive(Drop)]
pub enum SegmentForm {
    Submit(Box<SingleSubmit>),
    Ready { id: SessionId },
    Abort { id: SessionId },
    Success { id: SessionId, time: Millis },
    StateOf { id: SessionId },
    /// Any other call outside lane blocks. No line makes one yet.
    Other(Box<Call>),
    /// Lanes, or a segment with a cut. No line makes one yet.
    Lanes(Box<Segment>),
}

const _: () = prove!(size_of::<SegmentForm>() == 16);

/// A borrowed segment: one call outside lane blocks, or lanes.
#[derive(Clone, Copy)]
pub enum Placed<'a> {
    Plain(CallRef<'a>),
    Lanes(&'a Segment),
}

impl SingleSubmit {
    fn borrowed(&self) -> CallRef<'_>
        ensures { call_at result ≡ single_submit self.now }
    {
        CallRef::Submit {
            id: self.id,
            children: &[],
            rollback: self.rollback,
            parts: slice::from_ref(&self.part),
        }
    }
}

impl SegmentForm {
    /// The segment, borrowed.
    pub fn placed(&self) -> Placed<'_>
        ensures { segment_at result ≡ segment_of self.now }
    {
        match self {
            SegmentForm::Submit(submit) => Placed::Plain(submit.borrowed()),
            SegmentForm::Ready { id } => Placed::Plain(CallRef::Ready { id: *id }),
            SegmentForm::Abort { id } => Placed::Plain(CallRef::Abort { id: *id }),
            SegmentForm::Success { id, time } => Placed::Plain(CallRef::Success {
                time: *time,
                id: *id,
            }),
            SegmentForm::StateOf { id } => Placed::Plain(CallRef::StateOf { id: *id }),
            SegmentForm::Other(call) => Placed::Plain(call.borrowed()),
            SegmentForm::Lanes(segment) => Placed::Lanes(segment),
        }
    }
}

/// Segments, seen as a list.
#[derive(Drop)]
pub struct SegmentList {
    forms: Vec<SegmentForm>,
}

impl Model for SegmentList {
    ghost use Rattle.std.specs.Prelude.{List, map};
    ghost use Rattle.std.specs.Coded.{coded_list};
    ghost use Rattle.apex_world.specs.contracts.script.Segment as segment;
    ghost use Rattle.apex_world.specs.declared.script.Segment.{Segment};
    ghost use Rattle.apex_world.specs.Segments.{segment_of};

    ghost Value = { List Segment };

    ghost coded = { coded_list segment.the_row.coded };

    ghost view = { λ list. map segment_of list.forms.items };
}

impl SegmentList {
    /// No segment. It takes no memory.
    pub fn new(alloc: Global) -> Self
        ensures { result ≡ [] }
    {
        SegmentList {
            forms: Vec::new(alloc),
        }
    }

    /// Adds a segment at the end. Fails only if memory runs out; the list may then hold anything.
    pub fn push(&mut self, form: SegmentForm) -> Result<(), AllocError>
        ensures { OnOk result (self.new ≡ self.old ++ segment_of form ∷ []) }
    {
        self.forms.push(form)?;
        Ok(())
    }

    /// The segments as they are kept in memory.
    pub fn forms(&self) -> &[SegmentForm]
        ensures { map segment_of result.now ≡ self.now }
    {
        &self.forms
    }
}
