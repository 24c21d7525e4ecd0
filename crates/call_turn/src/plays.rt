//! The rule of the table, its key, and the eight kinds of step: docs/turn.md.
ghost use Rattle.call_turn.specs.Rule.{Kept, Draws, Asks, Learns, Looks, Takes, Counts, Gives, Passes, opener, spent, stays, leaves, joined};

use crate::{OneThread, View};
use atomic_table::{Join, Play, Seat, Split, TableRule};
use std::marker::PhantomData;
use std::snapshot::Snapshot;

/// The object as it was given, and the number of lanes.
#[derive(Drop)]
pub struct Key<O> {
    pub object: Snapshot<O>,
    pub lanes: u32,
}

pub struct Law<O> {
    marker: PhantomData<O>,
}

type Sight<O> = View<<O as OneThread>::Order, <O as OneThread>::Answer, <O as OneThread>::Start>;

/// The seat of a pass, or of several that are joined.
pub type Place<O> = Seat<O, Sight<O>>;

impl<O: OneThread> TableRule<O, View<O::Order, O::Answer, O::Start>, Key<O>> for Law<O> {
    ghost holds = { λ key. Kept O.history O.start key.lanes key.object.value };

    ghost first = { λ key. opener key.lanes (O.start key.object.value) };
}

pub struct Deal<O>(PhantomData<O>);

impl<O: OneThread> Split<View<O::Order, O::Answer, O::Start>> for Deal<O> {
    ghost left = { stays };

    ghost right = { leaves };
}

pub struct Gather<O>(PhantomData<O>);

impl<O: OneThread> Join<View<O::Order, O::Answer, O::Start>> for Gather<O> {
    ghost both = { joined };

    ghost spent = { spent };
}

pub struct Draw<O>(PhantomData<O>);

impl<O: OneThread> Play<O, View<O::Order, O::Answer, O::Start>> for Draw<O> {
    ghost then = { Draws O.history O.start };
}

pub struct Ask<O>(PhantomData<O>);

impl<O: OneThread> Play<O, View<O::Order, O::Answer, O::Start>> for Ask<O> {
    ghost then = { Asks O.history O.start };
}

pub struct Learn<O>(PhantomData<O>);

impl<O: OneThread> Play<O, View<O::Order, O::Answer, O::Start>> for Learn<O> {
    ghost then = { Learns O.history O.start };
}

pub struct Look<O>(PhantomData<O>);

impl<O: OneThread> Play<O, View<O::Order, O::Answer, O::Start>> for Look<O> {
    ghost then = { Looks O.history O.start };
}

pub struct Take<O>(PhantomData<O>);

impl<O: OneThread> Play<O, View<O::Order, O::Answer, O::Start>> for Take<O> {
    ghost then = { Takes O.history O.start };
}

pub struct Count<O>(PhantomData<O>);

impl<O: OneThread> Play<O, View<O::Order, O::Answer, O::Start>> for Count<O> {
    ghost then = { Counts O.history O.start };
}

pub struct Give<O>(PhantomData<O>);

impl<O: OneThread> Play<O, View<O::Order, O::Answer, O::Start>> for Give<O> {
    ghost then = { Gives O.history O.start };
}

pub struct PassOn<O>(PhantomData<O>);

impl<O: OneThread> Play<O, View<O::Order, O::Answer, O::Start>> for PassOn<O> {
    ghost then = { Passes O.history O.start };
}
