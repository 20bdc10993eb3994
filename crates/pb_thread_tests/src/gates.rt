//! Gates that hold the workers of a run.
use crate::flags::{Flag, Hall};
use pb_shared::Gate;

/// A gate at which two clients meet before their first requests.
#[derive(Drop)]
pub struct MeetingGate {
    pub here: [Flag; 2],
}

impl Gate for MeetingGate {
    fn before(&self, client: u32, number: u64) {
        if number == 1 && client < 2 {
            let [first, second] = &self.here;
            let (own, other) = if client == 0 {
                (first, second)
            } else {
                (second, first)
            };
            own.set();
            other.wait();
        }
    }

    fn busy(&self, _client: u32, _number: u64) {}
}

/// A gate at which the clients 1 and 2 wait until client 0's round is inside, and say that they were busy.
#[derive(Drop)]
pub struct HallGate<'a> {
    pub hall: &'a Hall,
}

impl Gate for HallGate<'_> {
    fn before(&self, client: u32, _number: u64) {
        if client != 0 {
            self.hall.inside.wait();
        }
    }

    fn busy(&self, client: u32, _number: u64) {
        self.hall.note_busy(client);
    }
}
