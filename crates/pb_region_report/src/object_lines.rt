//! The lines of objects.
ghost use Rattle.std.specs.Prelude.{◌≡◌, ◌+◌, ◌<◌, ◌≤◌, ◌^◌, ◌++◌, [], ◌∷◌, codes, count_by, length, slice_index};
ghost use Rattle.pb_object.specs.Map.{register_at};
ghost use Rattle.pb_queue.specs.Waits.{items_in, tail_in, taken_in_state, waiting_of};
ghost use Rattle.pb_report.specs.Pieces.{numbered};
ghost use Rattle.pb_region_report.specs.ReportText.{is_written, register_line};

use pb_map::RegMap;
use pb_object::Object;
use pb_pmem::Pmem;
use pb_queue::TwinQueue;
use pb_report::{Lines, Text, push_spaced};
use pb_stack::Stack;

/// How many there are of something.
pub fn count_line(word: &str, count: u64) -> Text
    requires { length word.now ≤ 32 }
    ensures { result.bytes ≡ numbered word.now (count ∷ []) }
{
    let mut text = Text::new();
    text.push_str(word);
    push_spaced(&mut text, count);
    text.push_str("\n");
    text
}

/// How many registers were written.
pub fn written_count(map: &RegMap) -> u64
    ensures { result ≡ count_by is_written map.now }
{
    let mut count = 0;
    for key in 0..map.size() {
        if map.register(key).1 > 0 {
            count += 1;
        }
    }
    count
}

/// A line for each register that was written, and nothing for the others.
#[derive(Clone, Copy)]
pub struct RegisterLines<'a> {
    pub map: &'a RegMap,
    pub size: u32,
    ghost all: { size ≡ length map.now },
    ghost few: { size < 2 ^ 32 },
}

impl Lines for RegisterLines<'_> {
    ghost line_count = { λ lines. length lines.map.now };

    ghost line_at = { λ lines key. register_line key (register_at lines.map.now key) };

    fn count(&self) -> usize {
        self.size as usize
    }

    fn line(&self, place: usize) -> Text {
        let key = place as u32;
        let (value, version) = self.map.register(key);
        register_text(key, value, version)
    }
}

fn register_text(key: u32, value: u64, version: u64) -> Text
    ensures { result.bytes ≡ register_line key (record { value = value; version = version }) }
{
    let mut text = Text::new();
    if version > 0 {
        text.push_str("register");
        push_spaced(&mut text, u64::from(key));
        push_spaced(&mut text, value);
        push_spaced(&mut text, version);
        text.push_str("\n");
    }
    text
}

/// A line for each item of a stack, from bottom to top.
#[derive(Clone, Copy)]
pub struct ItemLines<'a> {
    pub stack: &'a Stack,
    pub depth: u32,
    ghost all: { depth ≡ length stack.now.items },
    ghost few: { depth < 2 ^ 32 },
}

impl Lines for ItemLines<'_> {
    ghost line_count = { λ lines. length lines.stack.now.items };

    ghost line_at = { λ lines place. numbered (codes "item") (slice_index lines.stack.now.items place ∷ []) };

    fn count(&self) -> usize {
        self.depth as usize
    }

    fn line(&self, place: usize) -> Text {
        item_text(self.stack.item(place as u32))
    }
}

/// A line for each item of a list.
#[derive(Clone, Copy)]
pub struct RisingLines<'a> {
    pub rising: &'a [u64],
}

impl Lines for RisingLines<'_> {
    ghost line_count = { λ lines. length lines.rising.now };

    ghost line_at = { λ lines place. numbered (codes "item") (slice_index lines.rising.now place ∷ []) };

    fn count(&self) -> usize {
        self.rising.len()
    }

    fn line(&self, place: usize) -> Text {
        item_text(self.rising[place])
    }
}

fn item_text(item: u64) -> Text
    ensures { result.bytes ≡ numbered (codes "item") (item ∷ []) }
{
    let mut text = Text::new();
    text.push_str("item");
    push_spaced(&mut text, item);
    text.push_str("\n");
    text
}

/// A line for each item of a queue, from front to back, with its position.
#[derive(Drop)]
pub struct WaitingLines<'a, P: Pmem> {
    pub queue: &'a TwinQueue<P>,
    pub head: u64,
    pub tail: u64,
    ghost from_head: { head ≡ taken_in_state queue.now.standing.state },
    ghost to_tail: { tail ≡ tail_in queue.now.standing.state },
}

impl<P: Pmem> Lines for WaitingLines<'_, P> {
    ghost line_count = { λ lines. length (items_in lines.queue.now.standing.state) };

    ghost line_at = { λ lines place. let waiting = waiting_of lines.queue.now.standing.state in
        numbered (codes "item") (slice_index waiting.items place ∷ (waiting.taken + place) ∷ []) };

    fn count(&self) -> usize {
        (self.tail - self.head) as usize
    }

    fn line(&self, place: usize) -> Text {
        let position = self.head + place as u64;
        waiting_text(self.queue.item(position), position)
    }
}

fn waiting_text(item: u64, position: u64) -> Text
    ensures { result.bytes ≡ numbered (codes "item") (item ∷ position ∷ []) }
{
    let mut text = Text::new();
    text.push_str("item");
    push_spaced(&mut text, item);
    push_spaced(&mut text, position);
    text.push_str("\n");
    text
}
