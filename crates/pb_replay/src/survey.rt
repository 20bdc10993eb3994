//! How many events a schedule names.
ghost use Rattle.std.specs.Prelude.{◌≡◌, ◌+◌, ◌≤◌, OnOk, IfErr};
ghost use Rattle.pb_script.specs.declared.event.TheConstants.{MOST_EVENTS};
ghost use Rattle.pb_script.specs.Words.{lines};
ghost use Rattle.pb_replay.specs.Survey.{IsCounted, IsUncounted, counted, events_more};

use pb_layout::Header;
use pb_script::{EventLine, MOST_EVENTS, ScriptFault, cut_line, read_event_line};

/// What was counted of a schedule so far.
#[derive(Clone, Copy)]
struct Survey {
    /// Event lines, refused ones too.
    lines: u32,
    /// The events of the lines before the first that is refused.
    events: u32,
    /// Whether none was refused yet.
    unrefused: bool,
}

/// How many events the lines of a source name, before the first line that is refused.
///
/// `Many` comes where there are more event lines than a schedule may have, and `Memory` where no log can have so many events.
pub fn event_count(bytes: &[u8], head: &Header) -> Result<u32, ScriptFault>
    ensures { IsCounted head.now.kind head.now.clients (lines bytes.now) result }
{
    let mut survey = Survey {
        lines: 0,
        events: 0,
        unrefused: true,
    };
    let mut rest = bytes;
    while !rest.is_empty() {
        let (line, after) = cut_line(rest);
        survey.add(read_event_line(line, head.kind, head.clients))?;
        rest = after;
    }
    Ok(survey.events)
}

impl Survey {
    fn add(&mut self, line: EventLine) -> Result<(), ScriptFault>
        requires { self.old.lines ≤ MOST_EVENTS }
        ensures counts { OnOk result (self.new ≡ counted line self.old) }
        ensures few { OnOk result (self.new.lines ≤ MOST_EVENTS) }
        ensures err { IfErr result (IsUncounted line self.old) }
    {
        match line {
            EventLine::Nothing => Ok(()),
            EventLine::Refused => {
                self.unrefused = false;
                self.add_line()
            }
            EventLine::Events(repeat) => {
                self.add_events(repeat.times)?;
                self.add_line()
            }
        }
    }

    fn add_line(&mut self) -> Result<(), ScriptFault>
        requires { self.old.lines ≤ MOST_EVENTS }
        ensures counts { OnOk result (self.new ≡ record self.old { lines = self.old.lines + 1 }) }
        ensures few { OnOk result (self.new.lines ≤ MOST_EVENTS) }
        ensures err { IfErr result (λ fault. (fault ≡ ScriptFault.Many) × (MOST_EVENTS ≤ self.old.lines)) }
    {
        if self.lines >= MOST_EVENTS {
            return Err(ScriptFault::Many);
        }
        self.lines += 1;
        Ok(())
    }

    fn add_events(&mut self, times: u32) -> Result<(), ScriptFault>
        ensures counts { OnOk result (self.new ≡ record self.old { events = self.old.events + events_more self.old.unrefused times }) }
        ensures err { IfErr result (λ fault. fault ≡ ScriptFault.Memory) }
    {
        if !self.unrefused {
            return Ok(());
        }
        match self.events.checked_add(times) {
            Some(events) => {
                self.events = events;
                Ok(())
            }
            None => Err(ScriptFault::Memory),
        }
    }
}
