//! A client's kept requests as a list.
ghost use Rattle.std.specs.Prelude.{◌≡◌, ◌<◌};
ghost use Rattle.std.specs.Prelude.{slice_index_or};
ghost use Rattle.pb_core.specs.Client.{entry_by};
ghost use Rattle.pb_object.specs.History.{kept_by};
ghost use Rattle.pb_object.specs.KeptLists.{IsKeptList, kept_with};
ghost use Rattle.pb_object.specs.Request.{none_kept};
ghost use Rattle.pb_object.specs.Standing.{keep, kept_list_of};

use arrayvec::ArrayVec;
use pb_engine::Engine;
use pb_object::{Ask, KEPT_REQUESTS, Kept, Reply};

/// The member at a place, or number 0.
pub fn kept_in(list: &[Kept], place: u32) -> Kept
    ensures { result ≡ slice_index_or list.now place none_kept }
{
    match list.get(place as usize) {
        Some(kept) => *kept,
        None => Kept::default(),
    }
}

/// Puts a recorded request in front of a client's list, which is cut to eight.
pub fn keep_in_front(list: &mut ArrayVec<Kept, 8>, kept: &Kept)
    ensures { list.new.items ≡ keep kept.now list.old.items }
{
    if list.len() == KEPT_REQUESTS as usize {
        list.pop();
    }
    list.insert(0, *kept);
}

/// The request as it is kept with its reply.
pub fn recorded(ask: &Ask, reply: &Reply) -> Kept
    ensures { result ≡ kept_by (entry_by ask.now reply.now) }
{
    Kept {
        number: ask.number,
        op: ask.op,
        reply: *reply,
    }
}

/// The member of a list with this number.
pub fn find_kept(list: &[Kept], number: u64) -> Option<Kept>
    ensures { result ≡ kept_with number list.now }
{
    list.iter().copied().find(|kept| kept.number == number)
}

/// The list that an engine keeps of a client.
pub fn list_of<E: Engine>(engine: &E, client: u32) -> ArrayVec<Kept, 8>
    requires client { client < (E.seen engine.now).standing.clients }
    requires kept { IsKeptList (kept_list_of (E.seen engine.now).standing client) }
    ensures { result.items ≡ kept_list_of (E.seen engine.now).standing client }
{
    let mut list = ArrayVec::<Kept, 8>::new();
    for place in 0..KEPT_REQUESTS {
        let kept = engine.kept_at(client, place);
        if kept.number == 0 {
            return list;
        }
        list.push(kept);
    }
    list
}
