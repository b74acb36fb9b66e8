// How findings are printed.
ghost use Rattle.std.specs.Prelude.{◌≡◌, ◌≤◌, IfOk, length};
ghost use Rattle.btr_rack.specs.Out.{Puts, Counts};
ghost use Rattle.btr_text.specs.Text.{WritesOut};
ghost use Rattle.btr_check.specs.Text.{printed_of, numbers_text, line_of, lines_of, last_line, findings_text};

use btr_findings::{Finding, Findings, Kind};
use btr_rack::{Out, SinkError};
use btr_text::{Piece, TextBuffer};

// The word of a kind.
fn word_of(kind: Kind) -> &'static [u8]
    ensures { result.now ≡ (printed_of kind).word }
{
    match kind {
        Kind::Lost => b"lost",
        Kind::Malformed => b"malformed",
        Kind::Unmapped => b"unmapped",
        Kind::Crosses => b"crosses",
        Kind::OutsideGroup => b"outside-group",
        Kind::Overlap => b"overlap",
        Kind::RefCount => b"ref-count",
        Kind::RefTotal => b"ref-total",
        Kind::ExtentKind => b"extent-kind",
        Kind::ExtentLength => b"extent-length",
        Kind::ExtentLevel => b"extent-level",
        Kind::SumMissing => b"sum-missing",
        Kind::SumOverlap => b"sum-overlap",
        Kind::SumStray => b"sum-stray",
        Kind::EntryItem => b"entry-item",
        Kind::EntryIndex => b"entry-index",
        Kind::EntryRef => b"entry-ref",
        Kind::RefEntry => b"ref-entry",
        Kind::EntryMode => b"entry-mode",
        Kind::LinkCount => b"link-count",
        Kind::DirSize => b"dir-size",
        Kind::Orphan => b"orphan",
        Kind::RootRef => b"root-ref",
        Kind::ChunkGroup => b"chunk-group",
        Kind::GroupChunk => b"group-chunk",
        Kind::ChunkDevice => b"chunk-device",
        Kind::DeviceChunk => b"device-chunk",
        Kind::GroupUsed => b"group-used",
        Kind::DeviceUsed => b"device-used",
        Kind::TotalUsed => b"total-used",
        Kind::DataLost => b"data-lost",
    }
}

// How many numbers of a kind are printed.
fn count_of(kind: Kind) -> usize
    ensures count { result ≡ (printed_of kind).count }
    ensures small { result ≤ 7 }
{
    match kind {
        Kind::Lost
        | Kind::Malformed
        | Kind::Unmapped
        | Kind::Crosses
        | Kind::SumOverlap
        | Kind::SumStray
        | Kind::ChunkGroup
        | Kind::GroupChunk
        | Kind::DataLost => 1,
        Kind::OutsideGroup
        | Kind::Overlap
        | Kind::ExtentKind
        | Kind::Orphan
        | Kind::RootRef
        | Kind::DeviceChunk
        | Kind::TotalUsed => 2,
        Kind::RefTotal
        | Kind::ExtentLength
        | Kind::ExtentLevel
        | Kind::SumMissing
        | Kind::EntryItem
        | Kind::EntryIndex
        | Kind::EntryRef
        | Kind::EntryMode
        | Kind::ChunkDevice
        | Kind::GroupUsed
        | Kind::DeviceUsed => 3,
        Kind::RefEntry | Kind::LinkCount | Kind::DirSize => 4,
        Kind::RefCount => 7,
    }
}

// WritesOut numbers, each behind a space.
fn push_numbers<O: Out>(
    buffer: &mut TextBuffer,
    numbers: &[u64],
    out: &mut O,
) -> Result<(), SinkError>
    ensures text { WritesOut (O.text out.old) (O.text out.new) buffer.old buffer.new (numbers_text numbers.now) result }
    ensures account { Counts (O.account out.old) (O.account out.new) result }
{
    for n in numbers {
        buffer.push_all(&[Piece::Plain(b" "), Piece::Decimal(*n)], out)?;
    }
    Ok(())
}

// WritesOut the line of a finding.
fn push_finding<O: Out>(
    buffer: &mut TextBuffer,
    finding: &Finding,
    out: &mut O,
) -> Result<(), SinkError>
    ensures text { WritesOut (O.text out.old) (O.text out.new) buffer.old buffer.new (line_of finding.now) result }
    ensures account { Counts (O.account out.old) (O.account out.new) result }
{
    buffer.push(Piece::Plain(word_of(finding.kind)), out)?;
    push_numbers(buffer, &finding.n[..count_of(finding.kind)], out)?;
    buffer.push(Piece::Plain(b"\n"), out)
}

// WritesOut the lines of findings, and answers how many there are.
fn push_findings<O: Out>(
    buffer: &mut TextBuffer,
    mut findings: Findings,
    out: &mut O,
) -> Result<u64, SinkError>
    ensures text { WritesOut (O.text out.old) (O.text out.new) buffer.old buffer.new (lines_of findings) result }
    ensures count { IfOk result (λ count. count ≡ length findings) }
    ensures account { Counts (O.account out.old) (O.account out.new) result }
{
    findings.few_law();
    let mut count = 0;
    while let Some(finding) = findings.next() {
        push_finding(buffer, &finding, out)?;
        count += 1;
    }
    Ok(count)
}

// WritesOut how many findings there are.
fn push_count<O: Out>(buffer: &mut TextBuffer, count: u64, out: &mut O) -> Result<(), SinkError>
    ensures text { WritesOut (O.text out.old) (O.text out.new) buffer.old buffer.new (last_line count) result }
    ensures account { Counts (O.account out.old) (O.account out.new) result }
{
    if count == 0 {
        return buffer.push(Piece::Plain(b"no findings\n"), out);
    }
    let pieces = [
        Piece::Plain(b"findings "),
        Piece::Decimal(count),
        Piece::Plain(b"\n"),
    ];
    buffer.push_all(&pieces, out)
}

/// Puts the lines of findings, one after another, and then how many there are, which is the answer. The error is the output's; a first part of
/// the text stands there then.
pub fn put_findings<O: Out>(findings: Findings, out: &mut O) -> Result<u64, SinkError>
    ensures text { Puts (O.text out.old) (O.text out.new) (findings_text findings) result }
    ensures count { IfOk result (λ count. count ≡ length findings) }
    ensures account { Counts (O.account out.old) (O.account out.new) result }
{
    let mut buffer = TextBuffer::new();
    let count = push_findings(&mut buffer, findings, out)?;
    push_count(&mut buffer, count, out)?;
    buffer.flush(out)?;
    Ok(count)
}
