//! A schedule is played, and what came of it is written.
ghost use Rattle.std.specs.Prelude.{◌≡◌, ◌<◌, ◌^◌, ◌++◌, length, IfOk, OnOk, OnErr};
ghost use Rattle.std.specs.Io.KnownBytes.{Appends};
ghost use Rattle.pb_pmem.specs.Count.{HasCause};
ghost use Rattle.pb_pmem.specs.Contents.{contents};
ghost use Rattle.pb_core.specs.World.{World as CoreWorld};
ghost use Rattle.pb_io.specs.SinkBytes.{AppendsSome};
ghost use Rattle.pb_layout.specs.Recovered.{Represents};
ghost use Rattle.pb_play.specs.Worlds.{IsShaped, ShowsWorld};
ghost use Rattle.pb_engines.specs.AnyEngine.{view_of};
ghost use Rattle.pb_region_report.specs.Writing.{ListsHeap};
ghost use Rattle.pb_region_report.specs.ReportText.{report_text};
ghost use Rattle.pb_replay.specs.AnswerText.{answers_text};
ghost use Rattle.pb_replay.specs.Replay.{IsReplay};

use crate::answers::AnswerLines;
use crate::device::open_region;
use crate::playing::Playing;
use crate::survey::event_count;
use pb_engines::AnyEngine;
use pb_events::Stepped;
use pb_image::Sound;
use pb_io::{Sink, SinkFault};
use pb_layout::Header;
use pb_region_report::{rising_items, write_prepared};
use pb_report::write_lines;
use pb_script::ScriptFault;
use std::alloc::{AllocError, Global};

/// What came of a schedule: the answers that clients were given, and the region that was left, with what its report takes memory for.
#[derive(Drop)]
pub struct Played {
    pub answers: Vec<Stepped>,
    pub engine: AnyEngine<Sound>,
    pub rising: Vec<u64>,
}

/// Plays a schedule for an object of this kind and size with so many clients: its events happen one after the other in a world over a
/// region that was just formatted.
///
/// `Many` comes where there are more event lines than a schedule may have; else `Line` with the first line that names no event, or
/// one of whose events can't happen when its turn comes. All memory is taken here.
pub fn play_schedule(alloc: Global, head: &Header, bytes: &[u8]) -> Result<Played, ScriptFault>
    requires { length bytes.now < 2 ^ 32 }
    ensures { IsReplay head.now bytes.now result }
{
    let room = event_count(bytes, head)?;
    let Ok(mut playing) = Playing::fresh(alloc, head, room) else {
        return Err(ScriptFault::Memory);
    };
    playing.play(bytes, head)?;
    match left_by(alloc, playing) {
        Ok(played) => Ok(played),
        Err(_) => Err(ScriptFault::Memory),
    }
}

// The region that was left is opened.
fn left_by(alloc: Global, playing: Playing) -> Result<Played, AllocError>
    requires { IsShaped playing.world }
    ensures answers { IfOk result (λ played. played.answers ≡ playing.answers) }
    ensures stands { (w : CoreWorld)
        → ShowsWorld playing.world w
        → IfOk result (λ played. Represents (contents w.tale.base w.tale.log) (view_of played.engine).standing) }
    ensures rising { IfOk result (λ played. ListsHeap played.engine played.rising.items) }
{
    let engine = open_region(alloc, &playing.world)?;
    let rising = rising_items(alloc, &engine)?;
    Ok(Played {
        answers: playing.answers,
        engine,
        rising,
    })
}

/// Writes what came of a schedule: a line for each answer, and the report of the region that was left. It takes no memory.
///
/// After an error some of the first bytes of the text are written.
pub fn write_played<K: Sink>(sink: &mut K, played: &Played) -> Result<(), SinkFault>
    requires { ListsHeap played.now.engine played.now.rising.items }
    ensures ok { let text = answers_text played.now.answers.items ++ report_text (view_of played.now.engine).standing in
        OnOk result (Appends (K.bytes sink.old) (K.bytes sink.new) text) }
    ensures err { let text = answers_text played.now.answers.items ++ report_text (view_of played.now.engine).standing in
        OnErr result (AppendsSome (K.bytes sink.old) (K.bytes sink.new) text) }
    ensures cause { HasCause (K.fault_count sink.old) (K.fault_count sink.new) result }
{
    let answers = played.answers.as_slice();
    write_lines(sink, &AnswerLines { answers })?;
    write_prepared(sink, &played.engine, &played.rising)
}
