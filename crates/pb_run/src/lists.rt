//! A script's requests by client.
ghost use Rattle.std.specs.Prelude.{◌≡◌, IfOk, vec_len};
ghost use Rattle.pb_run.specs.Lists.{AreListsOf, asks_of};

use crate::lines::Lines;
use pb_object::Ask;
use pb_report::Outcome;
use std::alloc::{AllocError, Global};

/// The requests of each client.
pub fn lines_by_client(alloc: Global, asks: &[Ask], clients: u32) -> Result<Vec<Lines>, AllocError>
    ensures long { IfOk result (λ lists. vec_len lists ≡ clients) }
    ensures lists { IfOk result (λ lists. AreListsOf asks.now clients lists.items) }
{
    let mut lists = Vec::with_capacity(alloc, clients as usize)?;
    for client in 0..clients {
        lists.push(lines_of(alloc, asks, client)?)?;
    }
    Ok(lists)
}

// The requests of one client.
fn lines_of(alloc: Global, asks: &[Ask], client: u32) -> Result<Lines, AllocError>
    ensures { IfOk result (λ lines. lines.asks.items ≡ asks_of client asks.now) }
{
    let own: Vec<Ask> = asks
        .iter()
        .copied()
        .filter(|ask| ask.client == client)
        .collect(alloc)?;
    let outcomes = vec![in alloc; Outcome::Left; own.len()]?;
    Ok(Lines {
        asks: own,
        outcomes,
    })
}
