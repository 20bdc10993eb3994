//! What was seen of schedules by chance.
use pb_events::Event;

/// How many requests were answered, how many crashes there were, and how many requests were answered after one.
#[derive(Clone, Copy, Default)]
pub struct Seen {
    pub answered: u32,
    pub crashes: u32,
    pub answered_after: u32,
}

impl Seen {
    /// A request was answered.
    pub fn answer(&mut self) {
        self.answered = self.answered.saturating_add(1);
        if self.crashes > 0 {
            self.answered_after = self.answered_after.saturating_add(1);
        }
    }

    /// There was a crash.
    pub fn crash(&mut self) {
        self.crashes = self.crashes.saturating_add(1);
    }

    /// With what was seen of another schedule.
    pub fn add(&mut self, other: &Seen) {
        self.answered = self.answered.saturating_add(other.answered);
        self.crashes = self.crashes.saturating_add(other.crashes);
        self.answered_after = self.answered_after.saturating_add(other.answered_after);
    }
}

/// Whether an event is a crash.
pub fn is_crash(event: &Event) -> bool {
    match event {
        Event::Ask(_) => false,
        Event::Step { .. } => false,
        Event::Fail { .. } => false,
        Event::Crash { .. } => true,
        Event::Reopen => false,
        Event::ReopenFail { .. } => false,
    }
}
