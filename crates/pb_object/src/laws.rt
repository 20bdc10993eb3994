//! What the objects promise in their own words: each law is the contract of a function that does nothing.
ghost use Rattle.std.specs.Prelude.{◌≡◌, ℕ, ◌+◌, ◌<◌, ◌≤◌, length, Some};
ghost use Rattle.std.specs.List.{All};
ghost use Rattle.pb_object.specs.declared.codes.Action.TheVariants.{Put, Push, Pop, RemoveMin, QueuePut, QueueTake};
ghost use Rattle.pb_object.specs.declared.kind.Kind.{Kind};
ghost use Rattle.pb_object.specs.Codes.{action_of};
ghost use Rattle.pb_object.specs.History.{Round, History, IsLegalRound, IsLegal, after_round, state_after};
ghost use Rattle.pb_object.specs.KeptLists.{HasKeptLists, HasNewestFirst};
ghost use Rattle.pb_object.specs.Laws.{PutChangesItsRegister, PopUndoesPush, RemoveMinsRise, ItemsComeOutInOrder, KeepsTheLastEight};
ghost use Rattle.pb_object.specs.Queue.{tail_of, last_position};
ghost use Rattle.pb_object.specs.Standing.{Standing, empty_standing};

use crate::map::Register;
use crate::queue::PlainQueue;
use crate::request::Op;

/// A put changes its register and no other.
pub fn put_changes_its_register(registers: &[Register], put: &Op)
    requires { action_of put.now.code ≡ Some Put }
    ensures { PutChangesItsRegister registers.now put.now }
{}

/// A stack's pop undoes its push.
pub fn pop_undoes_push(size: u32, items: &[u64], push: &Op, pop: &Op)
    requires push { action_of push.now.code ≡ Some Push }
    requires pop { action_of pop.now.code ≡ Some Pop }
    requires room { length items.now < size }
    ensures { PopUndoesPush size items.now push.now pop.now }
{}

/// What a heap's removemins give is rising, and an equal second item isn't lost.
pub fn removemins_rise(size: u32, items: &[u64], removemin: &Op)
    requires { action_of removemin.now.code ≡ Some RemoveMin }
    ensures { RemoveMinsRise size items.now removemin.now }
{}

/// A queue's items come out in the order in which they went in.
pub fn items_come_out_in_order(size: u32, queue: &PlainQueue, puts: &[Op], take: &Op)
    requires puts { All (λ put. action_of put.code ≡ Some QueuePut) puts.now }
    requires take { action_of take.now.code ≡ Some QueueTake }
    requires room { length queue.now.items + length puts.now ≤ size }
    requires positions { tail_of queue.now + length puts.now ≤ last_position }
    ensures { ItemsComeOutInOrder size queue.now puts.now take.now }
{}

/// After a history each client's kept requests are its last eight with their replies, the newest first: those of the history, and then
/// those before it.
pub fn the_last_eight_are_kept()
    ensures { (s : Standing) (history : History) → KeepsTheLastEight s history }
{}

/// In a region in which nothing was asked yet what is kept of each client is a kept list: at most eight requests, whose numbers fall. It
/// stays one with each legal round, and so with a legal history.
pub fn kept_lists_stay_sound()
    ensures fresh { (kind : Kind) (clients size : ℕ) → HasKeptLists (empty_standing kind clients size) }
    ensures round { (s : Standing) (round : Round) → HasKeptLists s → IsLegalRound s round → HasKeptLists (after_round s round) }
    ensures history { (s : Standing) (history : History) → HasKeptLists s → IsLegal s history → HasKeptLists (state_after s history) }
{}

/// The first request of a kept list is the client's newest.
pub fn the_newest_is_first()
    ensures { (s : Standing) → HasKeptLists s → HasNewestFirst s }
{}
