//! A client's pass: what it keeps of its requests, and its seat at the table.
use crate::lists::kept_in;
use arrayvec::ArrayVec;
use pb_engine::Engine;
use pb_object::{Ask, Kept};
use pb_rule::Place;
use std::marker::Model;

/// The right to ask of a shared object as one of its clients.
#[derive(Drop)]
pub struct Pass<E: Engine> {
    pub(crate) seat: Place<E>,
    pub(crate) client: u32,
    // The client's last recorded requests, the newest first.
    pub(crate) kept: ArrayVec<Kept, 8>,
    pub(crate) pending: Option<Ask>,
}

impl<E: Engine> Model for Pass<E> {
    ghost use Rattle.pb_rule.specs.Plays.{the_view};
    ghost use Rattle.pb_shared.specs.Passes.{PassSeen, IsPass};

    ghost Value = { PassSeen };

    ghost view = { λ p. record { table = p.seat.table_id; view = the_view p.seat.me } };

    ghost invariant = { λ p. IsPass p.seat.table_id p.seat.me p.client p.kept.items p.pending };
}

impl<E: Engine> Pass<E> {
    ghost use Rattle.std.specs.Prelude.{◌≡◌, ◌<◌};
    ghost use Rattle.std.specs.Prelude.{slice_index_or};
    ghost use Rattle.pb_object.specs.Request.{none_kept};
    ghost use Rattle.pb_object.specs.Standing.{newest};
    ghost use Rattle.pb_shared.specs.Passes.{TellsPending};

    /// The client.
    pub fn client(&self) -> u32
        ensures { result ≡ self.now.view.client }
    {
        self.client
    }

    /// The last request that is known as recorded, with number 0 for none.
    pub fn last(&self) -> Kept
        ensures { result ≡ newest self.now.view.body.kept }
    {
        kept_in(self.kept.as_slice(), 0)
    }

    /// One of the last eight recorded requests, the newest at place 0, with number 0 where there are not so many.
    pub fn kept_at(&self, place: u32) -> Kept
        requires { place < 8 }
        ensures { result ≡ slice_index_or self.now.view.body.kept place none_kept }
    {
        kept_in(self.kept.as_slice(), place)
    }

    /// The announced request that has no answer yet.
    pub fn pending(&self) -> Option<Ask>
        ensures { TellsPending result self.now }
    {
        self.pending
    }
}
