use atomic_table::{Seat, Shared, TableRule};
use pb_engine::Engine;
use std::marker::{Model, PhantomData};
use std::snapshot::Snapshot;

/// What a seat at the table knows, to contracts a list of views: one for a pass. No value of it is made.
pub struct Views;

impl Model for Views {
    ghost use Rattle.std.specs.Prelude.{List, []};
    ghost use Rattle.pb_rule.specs.View.{PassView};

    ghost Value = { List PassView };

    ghost view = { λ _. [] };

    ghost invariant = { λ _. Unit {0} };
}

/// The rule over words, slot and views.
pub struct Rule<E> {
    engine: PhantomData<E>,
}

impl<E: Engine> TableRule<Option<E>, Views, Snapshot<E>> for Rule<E> {
    ghost use Rattle.pb_rule.specs.View.{fresh_views};
    ghost use Rattle.pb_rule.specs.Rule.{Keeps};

    ghost holds = { λ key. Keeps E.seen (E.seen key.value).standing.kind (E.seen key.value) };

    ghost first = { λ key. fresh_views (E.seen key.value).standing.clients 0 (E.seen key.value).standing.kept };
}

/// The shared part of the table.
pub type Board<E> = Shared<Option<E>, Views, Snapshot<E>, Rule<E>>;

/// A seat at it.
pub type Place<E> = Seat<Option<E>, Views>;
