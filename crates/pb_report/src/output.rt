//! How text leaves: it is kept back in a fixed buffer, and goes to the sink in pieces.
ghost use Rattle.std.specs.Prelude.{◌≡◌, ◌<◌, ◌≤◌, ◌++◌, length, OnOk, OnErr};
ghost use Rattle.std.specs.Io.KnownBytes.{Appends};
ghost use Rattle.pb_pmem.specs.Count.{HasCause};
ghost use Rattle.pb_io.specs.SinkBytes.{AppendsSome};
ghost use Rattle.pb_report.specs.Pieces.{Passes, joined, section_of};

use crate::line::Text;
use arrayvec::ArrayVec;
use pb_io::{Sink, SinkFault};

// How many bytes leave at once.
const PIECE: usize = 8192;

// Bytes that haven't left yet.
type Pending = ArrayVec<u8, PIECE>;

/// Lines of a text, each made when it is asked for.
pub trait Lines {
    ghost use Rattle.std.specs.Prelude.{ℕ, List};

    /// How many lines there are.
    ghost line_count: { Self → ℕ };

    /// The line at a place.
    ghost line_at: { Self → ℕ → List ℕ };

    /// How many lines there are.
    fn count(&self) -> usize
        ensures { result ≡ line_count self.now };

    /// The line at a place.
    fn line(&self, place: usize) -> Text
        requires { place < line_count self.now }
        ensures { result.bytes ≡ line_at self.now place };
}

/// Writes all of the bytes, in as many calls as the sink wants. After an error some of the first of them are written.
pub fn send<K: Sink>(sink: &mut K, bytes: &[u8]) -> Result<(), SinkFault>
    ensures ok { OnOk result (Appends (K.bytes sink.old) (K.bytes sink.new) bytes.now) }
    ensures err { OnErr result (AppendsSome (K.bytes sink.old) (K.bytes sink.new) bytes.now) }
    ensures cause { HasCause (K.fault_count sink.old) (K.fault_count sink.new) result }
{
    let mut sent = 0;
    while sent < bytes.len() {
        sent += sink.write(bytes.split_at(sent).1)?;
    }
    Ok(())
}

// Puts a line after what is pending, and lets that go first where there is no room.
fn put<K: Sink>(sink: &mut K, pending: &mut Pending, text: &Text) -> Result<(), SinkFault>
    ensures ok { OnOk result (Passes (K.bytes sink.old) (K.bytes sink.new) pending.old.items pending.new.items text.now.bytes) }
    ensures err { OnErr result (AppendsSome (K.bytes sink.old) (K.bytes sink.new) pending.old.items) }
    ensures cause { HasCause (K.fault_count sink.old) (K.fault_count sink.new) result }
{
    let bytes = text.as_str().as_bytes();
    if pending.remaining_capacity() < bytes.len() {
        send(sink, pending.as_slice())?;
        pending.clear();
    }
    let _ = pending.try_extend_from_slice(bytes);
    Ok(())
}

// Puts lines after what is pending.
fn put_lines<K: Sink, L: Lines>(
    sink: &mut K,
    pending: &mut Pending,
    lines: &L,
) -> Result<(), SinkFault>
    ensures ok { let text = joined (L.line_at lines.now) (L.line_count lines.now) in
        OnOk result (Passes (K.bytes sink.old) (K.bytes sink.new) pending.old.items pending.new.items text) }
    ensures err { let text = joined (L.line_at lines.now) (L.line_count lines.now) in
        OnErr result (AppendsSome (K.bytes sink.old) (K.bytes sink.new) (pending.old.items ++ text)) }
    ensures cause { HasCause (K.fault_count sink.old) (K.fault_count sink.new) result }
{
    for place in 0..lines.count() {
        let line = lines.line(place);
        put(sink, pending, &line)?;
    }
    Ok(())
}

/// Writes lines, one after the other. After an error some of the first bytes of the text are written.
pub fn write_lines<K: Sink, L: Lines>(sink: &mut K, lines: &L) -> Result<(), SinkFault>
    ensures ok { OnOk result (Appends (K.bytes sink.old) (K.bytes sink.new) (joined (L.line_at lines.now) (L.line_count lines.now))) }
    ensures err { OnErr result (AppendsSome (K.bytes sink.old) (K.bytes sink.new) (joined (L.line_at lines.now) (L.line_count lines.now))) }
    ensures cause { HasCause (K.fault_count sink.old) (K.fault_count sink.new) result }
{
    let mut pending = Pending::new();
    put_lines(sink, &mut pending, lines)?;
    send(sink, pending.as_slice())
}

/// Writes two sections, each of them a first text and the lines that it stands above. After an error some of the first bytes of both are
/// written.
pub fn write_sections<K: Sink, A: Lines, B: Lines>(
    sink: &mut K,
    first: &Text,
    first_lines: &A,
    second: &Text,
    second_lines: &B,
) -> Result<(), SinkFault>
    ensures ok { OnOk result (Appends (K.bytes sink.old) (K.bytes sink.new)
        (section_of first.now.bytes (A.line_at first_lines.now) (A.line_count first_lines.now)
        ++ section_of second.now.bytes (B.line_at second_lines.now) (B.line_count second_lines.now))) }
    ensures err { OnErr result (AppendsSome (K.bytes sink.old) (K.bytes sink.new)
        (section_of first.now.bytes (A.line_at first_lines.now) (A.line_count first_lines.now)
        ++ section_of second.now.bytes (B.line_at second_lines.now) (B.line_count second_lines.now))) }
    ensures cause { HasCause (K.fault_count sink.old) (K.fault_count sink.new) result }
{
    let mut pending = Pending::new();
    put_section(sink, &mut pending, first, first_lines)?;
    put_section(sink, &mut pending, second, second_lines)?;
    send(sink, pending.as_slice())
}

// Puts a first text, and the lines that it stands above, after what is pending.
#[tactic(auto, unfolding(crate::specs::Pieces::section_of))]
fn put_section<K: Sink, L: Lines>(
    sink: &mut K,
    pending: &mut Pending,
    first: &Text,
    lines: &L,
) -> Result<(), SinkFault>
    ensures ok { let text = section_of first.now.bytes (L.line_at lines.now) (L.line_count lines.now) in
        OnOk result (Passes (K.bytes sink.old) (K.bytes sink.new) pending.old.items pending.new.items text) }
    ensures err { let text = section_of first.now.bytes (L.line_at lines.now) (L.line_count lines.now) in
        OnErr result (AppendsSome (K.bytes sink.old) (K.bytes sink.new) (pending.old.items ++ text)) }
    ensures cause { HasCause (K.fault_count sink.old) (K.fault_count sink.new) result }
{
    put(sink, pending, first)?;
    put_lines(sink, pending, lines)
}
