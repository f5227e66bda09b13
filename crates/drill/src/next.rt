//! The next line of a script, read.
ghost use Rattle.std.specs.Prelude.{◌≡◌, ◌≢◌, [], ◌≤◌, IsTrue, length};
ghost use Rattle.as4_flow.specs.Flow.{Rose, Told, before};
ghost use Rattle.drill.specs.Next.{HoldsNoLine, IfLine, ReadsAhead};
ghost use Rattle.byte_forms.specs.Parted.{parted};
ghost use Rattle.drill_script.specs.LineParts.{BeginsKept};
ghost use Rattle.drill_script.specs.LineText.{is_line, line_limit, line_text};
ghost use Rattle.drill_script.specs.Lines.{BeginsLong, ahead_limit};
ghost use Rattle.drill_script.specs.declared.line.Line.{Line as LineValue};

use as4_flow::Source;
use drill_script::{Line, LineGot, LineReader, line_of};
use std::alloc::Global;

/// What stands next in a script.
#[derive(Drop)]
pub(crate) enum Next {
    Line(Line),
    /// Nothing is left.
    End,
    /// No line of the grammar, or none that is ended within the limit.
    Outside,
    /// The source failed.
    Failed,
    NoMemory,
}

/// Reads the next line of a source. What comes behind it is held by the reader.
pub(crate) fn next_line<S: Source>(alloc: Global, reader: &mut LineReader, source: &mut S) -> Next
    ensures line { IfLine result
        (λ line. before reader.old (S.left source.old) ≡ before (parted 10 (line_text line) reader.new) (S.left source.new)) }
    ensures range { IfLine result (λ line. IsTrue (is_line line) × (length (line_text line) ≤ line_limit)) }

    ensures end { result ≡ Next.End → Told (before reader.old (S.left source.old)) (λ bytes. bytes ≡ []) }
    ensures outside { result ≡ Next.Outside → Told (before reader.old (S.left source.old)) HoldsNoLine }
    ensures long { BeginsLong reader.old → result ≡ Next.Outside }
    ensures failed { result ≡ Next.Failed → Rose (S.faults source.old) (S.faults source.new) }
    ensures counted { S.faults source.old ≤ S.faults source.new }

    // No fault is read over, and no more is read than a reader reads ahead.
    ensures quiet { result ≢ Next.Failed → S.faults source.new ≡ S.faults source.old }
    ensures ahead { length reader.old ≤ ahead_limit → ReadsAhead reader.old (S.left source.old) (S.left source.new) }
    ensures held { length reader.old ≤ ahead_limit
        → IfLine result (λ line. length (parted 10 (line_text line) reader.new) ≤ ahead_limit) }
{
    match reader.next(source) {
        LineGot::Line(bytes) => read_line(alloc, bytes.bytes()),
        LineGot::End => Next::End,
        LineGot::Unended => Next::Outside,
        LineGot::TooLong => Next::Outside,
        LineGot::Failed => Next::Failed,
        LineGot::NoMemory => Next::NoMemory,
    }
}

// Reads a line, given without the LF at its end.
fn read_line(alloc: Global, bytes: &[u8]) -> Next
    ensures line { IfLine result (λ line. (bytes.now ≡ line_text line) × IsTrue (is_line line)) }
    ensures outside { result ≡ Next.Outside → (line : LineValue) → IsTrue (is_line line) → bytes.now ≢ line_text line }
    ensures here { (result ≢ Next.End) × (result ≢ Next.Failed) }

    // Memory is wanted behind these first words alone.
    ensures lean { result ≡ Next.NoMemory → BeginsKept bytes.now }
{
    match line_of(alloc, bytes) {
        Ok(Some(line)) => Next::Line(line),
        Ok(None) => Next::Outside,
        Err(_) => Next::NoMemory,
    }
}
