//! The rule of the lock's table, and its kinds of step. No value of these types is made.

use crate::filed::Filed;
use crate::view::View;
use atomic_table::{Join, Play, Seat, Shared, Split, Table, TableRule};
use std::alloc::Global;
use std::marker::{Brand, PhantomData};
use std::snapshot::Snapshot;

/// The word that has the number of entries of the longest journal.
pub const FRONT: usize = 0;
/// The word that has the next ticket.
pub const TICKET: usize = 1;
/// The word that has the ticket that is served.
pub const SERVING: usize = 2;

/// What the rule may read: the value when the lock was made, and the number of seats.
pub struct Key<S> {
    pub opening: Snapshot<S>,
    pub seats: u16,
}

impl<S> Drop for Key<S> {
    fn drop(self) {
        let Self {
            opening: _,
            seats: _,
        } = self;
    }
}

/// The rule.
pub struct Turns<S> {
    of: PhantomData<S>,
}

impl<S: Filed> TableRule<Option<S>, View, Key<S>> for Turns<S> {
    ghost use Rattle.turn_lock.specs.Rule.{InTurn};
    ghost use Rattle.turn_lock.specs.Steps.{opener};

    ghost holds = { λ key. InTurn S.journal key.seats (S.journal key.opening.value) };

    ghost first = { λ key. opener (S.journal key.opening.value) };
}

/// The lock's table, as its owner has it.
pub type Board<S> = Table<Option<S>, View, Key<S>, Turns<S>, Global>;

/// The lock's table, as its seats share it.
pub type SharedBoard<S> = Shared<Option<S>, View, Key<S>, Turns<S>>;

/// A seat at the lock's table.
pub type TableSeat<S> = Seat<Option<S>, View>;

/// A seat draws a ticket.
pub struct Draw;

impl<S: Filed> Play<Option<S>, View> for Draw {
    ghost use Rattle.turn_lock.specs.Steps.{drawn};

    ghost then = { drawn S.journal };
}

/// A seat looks whether its ticket is served, and takes the slot where it is.
pub struct Serve;

impl<S: Filed> Play<Option<S>, View> for Serve {
    ghost use Rattle.turn_lock.specs.Steps.{served};

    ghost then = { served S.journal };
}

/// A seat looks at the front.
pub struct Look;

impl<S: Filed> Play<Option<S>, View> for Look {
    ghost use Rattle.turn_lock.specs.Steps.{looked};

    ghost then = { looked S.journal };
}

/// The entry that a note is of. A kind of step sees no argument of its call, so each call picks it.
pub trait Noted {
    ghost use Rattle.ground_model.specs.declared.entry.Entry.{Entry};

    ghost entry: { Entry };
}

impl Noted for Brand {
    ghost use Rattle.turn_lock.specs.Insides.{removal};

    ghost entry = { removal 0 0 };
}

/// A seat notes an entry.
pub struct Note<J> {
    of: PhantomData<J>,
}

impl<S: Filed, J: Noted> Play<Option<S>, View> for Note<J> {
    ghost use Rattle.turn_lock.specs.Steps.{noted};

    ghost then = { noted S.journal J.entry };
}

/// A seat puts the slot back, and lets the next ticket be served.
pub struct PassOn;

impl<S: Filed> Play<Option<S>, View> for PassOn {
    ghost use Rattle.turn_lock.specs.Steps.{passed};

    ghost then = { passed S.journal };
}

/// A seat that two were joined into looks at what they knew.
pub struct Recall;

impl<S: Filed> Play<Option<S>, View> for Recall {
    ghost use Rattle.turn_lock.specs.Steps.{recalled};

    ghost then = { recalled S.journal };
}

/// A seat is split.
pub struct Another;

impl Split<View> for Another {
    ghost use Rattle.turn_lock.specs.Steps.{left_by_split, right_by_split};

    ghost left = { left_by_split };

    ghost right = { right_by_split };
}

/// Two seats are joined.
pub struct Merge;

impl Join<View> for Merge {
    ghost use Rattle.turn_lock.specs.Steps.{joined, spent};

    ghost both = { joined };

    ghost spent = { spent };
}
