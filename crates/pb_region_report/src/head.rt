//! The head of a report.
ghost use Rattle.std.specs.Prelude.{◌≡◌, ◌+◌, ◌≤◌, ◌++◌, [], ◌∷◌, codes, decimal};
ghost use Rattle.arrayvec.specs.ArrayString.{array_string_len};
ghost use Rattle.pb_object.specs.declared.kind.Kind.TheVariants.{Queue};
ghost use Rattle.pb_object.specs.Codes.{kind_word};
ghost use Rattle.pb_object.specs.Text.{spaced};
ghost use Rattle.pb_engine.specs.View.{IsEngine};
ghost use Rattle.pb_report.specs.Pieces.{numbered};
ghost use Rattle.pb_region_report.specs.ReportText.{head_text};

use pb_comb::Comb;
use pb_engine::Engine;
use pb_object::{Kind, Object};
use pb_pmem::Pmem;
use pb_queue::TwinQueue;
use pb_report::{Text, push_spaced};

/// The head of the report of an object with one side.
pub fn comb_head<O: Object, P: Pmem>(comb: &Comb<O, P>) -> Text
    ensures { result.bytes ≡ head_text comb.now.standing }
{
    let header = comb.header();
    let kind = comb.kind();
    let clients = comb.clients();
    head(kind, clients, header.size, &comb_rounds(comb))
}

/// The head of the report of a queue.
pub fn queue_head<P: Pmem>(queue: &TwinQueue<P>) -> Text
    ensures text { result.bytes ≡ head_text queue.now.standing }
    ensures sound { IsEngine Queue queue.now }
{
    let header = queue.header();
    let kind = queue.kind();
    let clients = queue.clients();
    head(kind, clients, header.size, &queue_rounds(queue))
}

// The rounds of the one side, after a space.
fn comb_rounds<O: Object, P: Pmem>(comb: &Comb<O, P>) -> Text
    requires { IsEngine O.KIND comb.now }
    ensures text { result.bytes ≡ spaced comb.now.standing.rounds }
    ensures len { array_string_len result ≤ 42 }
{
    let mut text = Text::new();
    push_spaced(&mut text, comb.rounds());
    text
}

// The rounds of both sides, each after a space.
fn queue_rounds<P: Pmem>(queue: &TwinQueue<P>) -> Text
    requires { IsEngine Queue queue.now }
    ensures text { result.bytes ≡ spaced queue.now.standing.rounds }
    ensures len { array_string_len result ≤ 42 }
{
    let mut text = Text::new();
    push_spaced(&mut text, queue.round_of(0));
    push_spaced(&mut text, queue.round_of(1));
    text
}

fn head(kind: Kind, clients: u32, size: u32, rounds: &Text) -> Text
    requires { array_string_len rounds.now ≤ 42 }
    ensures { result.bytes ≡ (codes "kind " ++ (kind_word kind ++ codes "\n")) ++ (numbered (codes "clients") (clients ∷ [])
        ++ (numbered (codes "size") (size ∷ []) ++ (codes "rounds" ++ (rounds.now.bytes ++ codes "\n")))) }
{
    let mut text = Text::new();
    text.push_str("kind ");
    text.push_str(kind.word());
    text.push_str("\nclients");
    push_spaced(&mut text, u64::from(clients));
    text.push_str("\nsize");
    push_spaced(&mut text, u64::from(size));
    text.push_str("\nrounds");
    text.push_str(rounds.as_str());
    text.push_str("\n");
    text
}
