//! A shared object.
use crate::answers::{Again, Attempt, Performed};
use crate::asks::announce_request;
use crate::gate::Gate;
use crate::judge::judge;
use crate::lists::{keep_in_front, recorded};
use crate::pass::Pass;
use crate::passes::{add_passes, all_lists, join_all, pending_number};
use crate::tries::make_try;
use crossbeam_utils::Backoff;
use pb_engine::Engine;
use pb_object::{Ask, Kind, Op};
use pb_rule::opening::{Words, make_table, take_engine};
use std::alloc::{AllocError, Global};
use std::marker::Model;
use std::sync::Wait;

/// An object that threads share: an engine, and the words by which its clients ask and answer one another.
#[derive(Drop)]
pub struct Shared<E: Engine> {
    table: Words<E>,
    kind: Kind,
    clients: u32,
}

impl<E: Engine> Model for Shared<E> {
    ghost use Rattle.pb_shared.specs.Passes.{SharedSeen, IsShared};

    ghost Value = { SharedSeen };

    ghost view = { λ s. record { table = s.table.shared.table_id; start = E.seen s.table.shared.key.value } };

    ghost invariant = { λ s. IsShared s.table.shared.table_id (E.seen s.table.shared.key.value) s.kind s.clients };
}

impl<E: Engine> Shared<E> {
    ghost use Rattle.std.specs.Prelude.{◌≡◌, ◌<◌, ◌≤◌, true, map, IfOk, IfErr};
    ghost use Rattle.pb_object.specs.Request.{IsOperation};
    ghost use Rattle.pb_object.specs.Standing.{newest};
    ghost use Rattle.pb_object.specs.declared.request.TheConstants.{LAST_NUMBER};
    ghost use Rattle.pb_rule.specs.Opening.{HasEnded};
    ghost use Rattle.pb_shared.specs.Kept.{again_on};
    ghost use Rattle.pb_shared.specs.Passes.{IsOf, IsIdle, IsPending, HasOpened, AreAll, next_number, announces, asked_again, view_of};
    ghost use Rattle.pb_shared.specs.Tries.{HasTried, HasPerformed, IsSamePass};

    /// Shares an engine that is sure. There is a pass for each client, in rising order. Where memory runs out the engine is handed back.
    pub fn open(alloc: Global, engine: E) -> Result<(Shared<E>, Vec<Pass<E>>), (AllocError, E)>
        requires sure { (E.seen engine).sure ≡ true }
        ensures ok { IfOk result (λ opened. HasOpened (E.seen engine) opened.0 opened.1.items) }
        ensures all { IfOk result (λ opened. AreAll opened.0 opened.1.items) }
        ensures err { IfErr result (λ refused. refused.1 ≡ engine) }
    {
        let kind = engine.kind();
        let clients = engine.clients();
        let Ok(lists) = all_lists(alloc, &engine, clients) else {
            return Err((AllocError, engine));
        };
        let Ok(mut passes) = Vec::with_capacity(alloc, clients as usize) else {
            return Err((AllocError, engine));
        };
        let (table, seat) = make_table(alloc, engine)?;
        add_passes(&table.shared, seat, clients, lists.as_slice(), &mut passes);
        let shared = Shared {
            table,
            kind,
            clients,
        };
        Ok((shared, passes))
    }

    /// The object's kind: which operations may be announced.
    pub fn kind(&self) -> Kind
        ensures { result ≡ self.now.start.standing.kind }
    {
        self.kind
    }

    /// Announces the pass's next request, and answers its number.
    pub fn announce(&self, pass: &mut Pass<E>, op: &Op) -> u64
        requires of { IsOf self.now pass.old }
        requires idle { IsIdle pass.old }
        requires operation { IsOperation self.now.start.standing.kind op.now }
        requires few { (newest pass.old.view.body.kept).number < LAST_NUMBER }
        ensures number { result ≡ next_number pass.old }
        ensures announced { pass.new ≡ announces op.now pass.old }
    {
        let ask = Ask {
            client: pass.client,
            number: pass.last().number + 1,
            op: *op,
        };
        announce_request(&self.table.shared, &mut pass.seat, &ask);
        pass.pending = Some(ask);
        ask.number
    }

    /// Tries to have the pending request answered: takes the reply from the published row, or takes the turn and serves all that is
    /// announced.
    pub fn attempt(&self, pass: &mut Pass<E>) -> Attempt
        requires of { IsOf self.now pass.old }
        requires pending { IsPending pass.old }
        ensures table { pass.new.table ≡ pass.old.table }
        ensures tried { HasTried pass.old.view pass.new.view result }
        ensures same { IsSamePass pass.old.view pass.new.view }
    {
        let Some(ask) = pass.pending else {
            unreachable!()
        };
        let answer = make_try(&self.table.shared, &mut pass.seat, &ask, self.clients);
        if let Attempt::Done(reply) = &answer {
            pass.pending = None;
            keep_in_front(&mut pass.kept, &recorded(&ask, reply));
        }
        answer
    }

    /// Asks for a request under this number: one of the last eight is answered with its reply, and the next one is announced.
    pub fn again(&self, pass: &mut Pass<E>, number: u64, op: &Op) -> Again
        requires of { IsOf self.now pass.old }
        requires idle { IsIdle pass.old }
        requires operation { IsOperation self.now.start.standing.kind op.now }
        requires number { (1 ≤ number) × (number ≤ LAST_NUMBER) }
        ensures judged { result ≡ again_on pass.old.view.body.kept number op.now }
        ensures announced { pass.new ≡ asked_again result op.now pass.old }
    {
        let answer = judge(pass.kept.as_slice(), number, op);
        if let Again::Announced = answer {
            self.announce(pass, op);
        }
        answer
    }

    /// Tries until the pending request is answered or the device fails, and backs off after each try that met others.
    pub fn perform<G: Gate, R: Wait>(&self, rt: &R, pass: &mut Pass<E>, gate: &G) -> Performed
        requires of { IsOf self.now pass.old }
        requires pending { IsPending pass.old }
        ensures table { pass.new.table ≡ pass.old.table }
        ensures performed { HasPerformed pass.old.view pass.new.view result }
        ensures same { IsSamePass pass.old.view pass.new.view }
    {
        let backoff = Backoff::new();
        for _ in rt.forever() {
            match self.attempt(pass) {
                Attempt::Done(reply) => return Performed::Done(reply),
                Attempt::Fault { from, to } => return Performed::Fault { from, to },
                Attempt::Busy { from: _, to: _ } => {
                    gate.busy(pass.client, pending_number(&pass.pending));
                    backoff.snooze();
                }
            }
        }
        unreachable!()
    }

    /// Ends the sharing, and hands the engine back. Pending requests are forgotten.
    pub fn close(self, passes: Vec<Pass<E>>) -> E
        requires all { AreAll self passes.items }
        ensures { HasEnded self.start.standing.kind self.start (E.seen result) (map view_of passes.items) }
    {
        let Shared {
            table,
            kind: _,
            clients: _,
        } = self;
        let seat = join_all(&table.shared, passes);
        take_engine(table, seat)
    }
}
