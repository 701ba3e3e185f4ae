//! Lines of a source.
ghost use Rattle.std.specs.Prelude.{◌≡◌, ◌≢◌, ◌+◌, ◌≤◌, ◌^◌, length, IsTrue};
ghost use Rattle.std.specs.Io.KnownBytes.{Consumes, IsAtEnd};
ghost use Rattle.hk_base.specs.Faults.{Rose};
ghost use Rattle.hk_base.specs.Reading.{ahead, IsMore};
ghost use Rattle.command_io.specs.Lines.{is_line, line_used};

use hk_base::{ByteList, Next, Reader, Source};

/// The most bytes that a line may have, without its LF.
pub const LONGEST_LINE: usize = 1048576;

/// How reading a line ended.
#[derive(Clone, Copy, Debug, PartialEq, Eq)]
pub enum LineEnd {
    /// The line ends with an LF.
    Line,
    /// The input ended; the line is what followed the last LF.
    End,
    /// The line has more than [`LONGEST_LINE`] bytes.
    TooLong,
    /// The input goes on past its longest length.
    Past,
    /// The source failed.
    Fault,
    /// Allocation failed.
    NoMemory,
}

/// Reads to the end of a line, and leaves the line in `line` without its LF.
pub fn read_line<S: Source>(reader: &mut Reader, source: &mut S, line: &mut ByteList) -> LineEnd
    ensures consumed { result ≢ LineEnd.NoMemory →
        Consumes (ahead reader.old (S.left source.old)) (ahead reader.new (S.left source.new))
        (line_used result line.new) }
    ensures used { result ≢ LineEnd.NoMemory →
        reader.new.used ≡ reader.old.used + length (line_used result line.new) }
    ensures bounded { reader.new.used ≤ 2 ^ 40 }
    ensures line { IsTrue (is_line line.new) }
    ensures short { result ≡ LineEnd.Line → length line.new ≤ 1048576 }
    ensures end { result ≡ LineEnd.End →
        IsAtEnd (ahead reader.new (S.left source.new)) × (length line.new ≤ 1048576) }
    ensures long { result ≡ LineEnd.TooLong → length line.new ≡ 1048577 }
    ensures past { result ≡ LineEnd.Past →
        (reader.new.used ≡ 2 ^ 40) × IsMore (ahead reader.new (S.left source.new)) }
    ensures later { S.faults source.old ≤ S.faults source.new }
    ensures fault { result ≡ LineEnd.Fault → Rose (S.faults source.old) (S.faults source.new) }
{
    line.clear();
    'bytes: while line.len() <= LONGEST_LINE {
        match reader.next(source) {
            Next::Byte(byte) => {
                if byte == b'\n' {
                    return LineEnd::Line;
                }
                if line.push(byte).is_err() {
                    return LineEnd::NoMemory;
                }
            }
            Next::End => return LineEnd::End,
            Next::Past => return LineEnd::Past,
            Next::Fault => return LineEnd::Fault,
        }
    }
    LineEnd::TooLong
}
