//! What clients learn of their requests, over many calls: each number is used once, and the last eight are kept.
use crate::plain::{Form, Plain, Wish, apply, contents, empty, wish_text};
use std::alloc::Global;
use std::process::Abort;
use std::sync::Wait;
use std::thread::Threads;

/// A line: its client, its number, and what it asks for.
pub type Line = (u32, u64, Wish);

/// All requests that were recorded, each client's from number 1 on, in an order in which the object answered so, and the object after
/// them.
#[derive(Drop)]
pub struct Asking {
    pub clients: u32,
    pub lines: Vec<Line>,
    replies: Vec<String>,
    pub plain: Plain,
    /// How many of them were recorded in the same round as one before.
    pub joined: usize,
}

/// The clients of an object of which nothing was asked.
pub fn beginning(
    rt: &(impl Abort + Wait + Threads + Sync),
    alloc: Global,
    clients: u32,
    (form, size): (Form, usize),
) -> Asking {
    Asking {
        clients,
        lines: Vec::new(alloc),
        replies: Vec::new(alloc),
        plain: empty(rt, alloc, form, size),
        joined: 0,
    }
}

// Records the next request.
fn record(
    rt: &(impl Abort + Wait + Threads + Sync),
    alloc: Global,
    asking: &mut Asking,
    line: Line,
) {
    let reply = apply(rt, alloc, &mut asking.plain, &line.2);
    asking.lines.push(line).expect(rt, "memory");
    asking.replies.push(reply).expect(rt, "memory");
}

/// The clients with their first requests alone: each one's up to its number here, and all where none stands here.
pub fn cut(
    rt: &(impl Abort + Wait + Threads + Sync),
    alloc: Global,
    asking: &Asking,
    lasts: &[u64],
) -> Asking {
    let object = (asking.plain.form, asking.plain.size);
    let mut less = beginning(rt, alloc, asking.clients, object);
    for line in asking.lines.iter() {
        let last = lasts.get(line.0 as usize).copied();
        if line.1 <= last.unwrap_or(u64::MAX) {
            record(rt, alloc, &mut less, *line);
        }
    }
    less.joined = asking.joined;
    less
}

/// A client's last number.
pub fn last(asking: &Asking, client: u32) -> u64 {
    let mut last = 0;
    for line in asking.lines.iter() {
        if line.0 == client {
            last = line.1;
        }
    }
    last
}

/// The request of a client's number, with its reply.
pub fn recorded<'a>(asking: &'a Asking, client: u32, number: u64) -> Option<(Wish, &'a String)> {
    for (line, reply) in asking.lines.iter().zip(asking.replies.iter()) {
        if line.0 == client && line.1 == number {
            return Some((line.2, reply));
        }
    }
    None
}

/// What became of a line: its client went on, or ended by its number or its operation, or by a failing call.
#[derive(Clone, Copy, PartialEq, Eq)]
enum End {
    On,
    Misnumbered,
    Doubt,
}

// What a line comes to that is tried, and whether the device fails at it.
fn outcome(
    rt: &(impl Abort + Wait + Threads + Sync),
    alloc: Global,
    asking: &mut Asking,
    line: Line,
    fails: bool,
) -> (String, End) {
    let (client, number, wish) = line;
    let last = last(asking, client);
    if number > last.saturating_add(1) {
        return (
            format!(in alloc; "gap").expect(rt, "memory"),
            End::Misnumbered,
        );
    }
    if number > last && fails {
        return (format!(in alloc; "doubt").expect(rt, "memory"), End::Doubt);
    }
    if number > last {
        record(rt, alloc, asking, line);
        let reply = asking.replies.last().expect(rt, "a reply");
        return (
            format!(in alloc; "new {reply}").expect(rt, "memory"),
            End::On,
        );
    }
    if number.saturating_add(8) <= last {
        return (format!(in alloc; "old").expect(rt, "memory"), End::On);
    }
    let (kept, reply) = recorded(asking, client, number).expect(rt, "a kept request");
    if kept == wish {
        (
            format!(in alloc; "kept {reply}").expect(rt, "memory"),
            End::On,
        )
    } else {
        (
            format!(in alloc; "changed").expect(rt, "memory"),
            End::Misnumbered,
        )
    }
}

// How a script ended, of how it had ended so far and of what became of one more line.
fn worse(end: End, next: End) -> End {
    match (end, next) {
        (End::Doubt, _) => End::Doubt,
        (_, End::On) => end,
        _ => next,
    }
}

/// What a script prints, and its status, where the device fails at the line of this place, or at none. The new requests are
/// recorded.
pub fn answered(
    rt: &(impl Abort + Wait + Threads + Sync),
    alloc: Global,
    asking: &mut Asking,
    script: &[Line],
    failing: usize,
) -> (String, u8) {
    let mut text = String::new(alloc);
    let mut ended = Vec::new(alloc);
    let mut end = End::On;
    for (place, line) in script.iter().enumerate() {
        let (said, next) = if ended.contains(&line.0) {
            (format!(in alloc; "left").expect(rt, "memory"), End::On)
        } else {
            outcome(rt, alloc, asking, *line, place == failing)
        };
        if next != End::On {
            ended.push(line.0).expect(rt, "memory");
        }
        end = worse(end, next);
        let (client, number, _) = *line;
        let whole = format!(in alloc; "{client} {number} {said}\n").expect(rt, "memory");
        text.push_str(&whole).expect(rt, "memory");
    }
    match end {
        End::On => (text, 0),
        End::Misnumbered => (text, 8),
        End::Doubt => (text, 6),
    }
}

/// The text of a script.
pub fn script_text(
    rt: &(impl Abort + Wait + Threads + Sync),
    alloc: Global,
    script: &[Line],
) -> String {
    let mut text = String::new(alloc);
    for (client, number, wish) in script {
        let wish = wish_text(rt, alloc, wish);
        let line = format!(in alloc; "{client} {number} {wish}\n").expect(rt, "memory");
        text.push_str(&line).expect(rt, "memory");
    }
    text
}

/// The word of an object.
pub fn form_text(form: Form) -> &'static str {
    match form {
        Form::Map => "map",
        Form::Stack => "stack",
        Form::Heap => "heap",
        Form::Queue => "queue",
    }
}

// The rounds: one for each request that isn't joined with another, and a queue's takes apart.
fn rounds(rt: &(impl Abort + Wait + Threads + Sync), alloc: Global, asking: &Asking) -> String {
    let count = asking.lines.len().saturating_sub(asking.joined);
    if asking.plain.form != Form::Queue {
        return format!(in alloc; "{count}").expect(rt, "memory");
    }
    let mut takes = 0usize;
    for line in asking.lines.iter() {
        if line.2 == Wish::Take {
            takes = takes.saturating_add(1);
        }
    }
    let puts = count.saturating_sub(takes);
    format!(in alloc; "{puts} {takes}").expect(rt, "memory")
}

// A client's line in a report, where its last request is the one of this number.
fn client_text(
    rt: &(impl Abort + Wait + Threads + Sync),
    alloc: Global,
    asking: &Asking,
    (client, number): (u32, u64),
) -> String {
    match recorded(asking, client, number) {
        Some((wish, reply)) => {
            let wish = wish_text(rt, alloc, &wish);
            format!(in alloc; "client {client} {number} {wish} {reply}\n").expect(rt, "memory")
        }
        None => format!(in alloc; "client {client} none\n").expect(rt, "memory"),
    }
}

/// The report of a region with these requests.
pub fn report_text(
    rt: &(impl Abort + Wait + Threads + Sync),
    alloc: Global,
    asking: &Asking,
) -> String {
    let clients = asking.clients;
    let form = form_text(asking.plain.form);
    let size = asking.plain.size;
    let rounds = rounds(rt, alloc, asking);
    let mut text = format!(in alloc;
        "kind {form}\nclients {clients}\nsize {size}\nrounds {rounds}\n"
    ).expect(rt, "memory");
    for client in 0..clients {
        let line = client_text(rt, alloc, asking, (client, last(asking, client)));
        text.push_str(&line).expect(rt, "memory");
    }
    let contents = contents(rt, alloc, &asking.plain);
    text.push_str(&contents).expect(rt, "memory");
    text
}

// The number of a client's last request as a report tells it: one from the first number to the second, with its reply.
fn told_last(
    rt: &(impl Abort + Wait + Threads + Sync),
    alloc: Global,
    report: &str,
    (least, most): (&Asking, &Asking),
    client: u32,
) -> u64 {
    for number in last(least, client)..=last(most, client) {
        let line = client_text(rt, alloc, most, (client, number));
        if report.contains(line.as_str()) {
            return number;
        }
    }
    assert!(rt; false, "client {client}: {report}");
    0
}

/// The requests that a report tells of: at least the first ones, at most the second ones.
pub fn told(
    rt: &(impl Abort + Wait + Threads + Sync),
    alloc: Global,
    report: &str,
    (least, most): (&Asking, &Asking),
) -> Asking {
    let mut lasts = Vec::new(alloc);
    for client in 0..most.clients {
        let last = told_last(rt, alloc, report, (least, most), client);
        lasts.push(last).expect(rt, "memory");
    }
    cut(rt, alloc, most, &lasts)
}

// How many requests more one client has than before, at most.
fn longest(before: &Asking, asking: &Asking) -> usize {
    let mut longest = 0;
    for client in 0..asking.clients {
        let more = last(asking, client).saturating_sub(last(before, client));
        longest = longest.max(more);
    }
    longest as usize
}

/// Whether a report is that of these requests, with some that were asked since before in one round, but never two of one client. The
/// number of rounds since then is this, where it is known.
pub fn is_report(
    rt: &(impl Abort + Wait + Threads + Sync),
    alloc: Global,
    report: &str,
    before: &Asking,
    asking: &mut Asking,
    rounds: Option<usize>,
) -> bool {
    let more = asking.lines.len().saturating_sub(before.lines.len());
    let least = longest(before, asking);
    for count in least..=more {
        let is_count = rounds.unwrap_or(count) == count;
        asking.joined = before.joined.saturating_add(more.saturating_sub(count));
        if is_count && report_text(rt, alloc, asking).as_str() == report {
            return true;
        }
    }
    false
}
