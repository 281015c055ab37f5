// The rule of the table, and what its steps tell.
use crate::view::View;
use atomic_table::{Join, Play, Split, TableRule};
use std::marker::{Brand, PhantomData};
use std::snapshot::Snapshot;
use xi_plain::Object;

/// What the table is told once: the object that the room was made with, and how many passes there may be.
pub struct Key<O> {
    pub first: Snapshot<O>,
    pub most: u32,
}

pub struct Ruling<O> {
    object: PhantomData<O>,
}

impl<O: Object> TableRule<Option<O>, View, Key<O>> for Ruling<O> {
    ghost use Rattle.std.specs.Prelude.{[]};
    ghost use Rattle.room_lock.specs.Inner.{Kept, idle};

    ghost holds = { λ key. Kept O.journal O.grown key.first.value key.most };

    ghost first = { λ key. idle 0 [] 1 };
}

// What a look at the number served tells is picked where it is called.
impl<O> Play<Option<O>, View> for Brand {
    ghost then = { λ st me found after. Unit {0} };
}

pub struct Draw;

impl<O> Play<Option<O>, View> for Draw {
    ghost use Rattle.room_lock.specs.Inner.{Drew};

    ghost then = { Drew };
}

pub struct Count;

impl<O: Object> Play<Option<O>, View> for Count {
    ghost use Rattle.room_lock.specs.Inner.{Counted};

    ghost then = { Counted O.journal };
}

pub struct Measure;

impl<O> Play<Option<O>, View> for Measure {
    ghost use Rattle.room_lock.specs.Inner.{Measured};

    ghost then = { Measured };
}

pub struct PassOn;

impl<O> Play<Option<O>, View> for PassOn {
    ghost use Rattle.room_lock.specs.Inner.{Passed};

    ghost then = { Passed };
}

pub struct Number;

impl<O> Play<Option<O>, View> for Number {
    ghost use Rattle.room_lock.specs.Inner.{FindsUnborn};

    ghost then = { FindsUnborn };
}

pub struct Next;

impl Split<View> for Next {
    ghost use Rattle.room_lock.specs.Inner.{one_more, next_caller};

    ghost left = { one_more };

    ghost right = { next_caller };
}

pub struct Away;

impl Join<View> for Away {
    ghost use Rattle.room_lock.specs.Inner.{joined_to, spent};

    ghost both = { joined_to };

    ghost spent = { spent };
}
