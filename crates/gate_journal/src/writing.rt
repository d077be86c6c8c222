//! Writes a journal's lines to a file or another writer.
ghost use Rattle.std.specs.Prelude.{OnOk};
ghost use Rattle.std.specs.Io.KnownBytes.{Appends};

use std::io;
use std::io::Write;

/// Writes lines after what the writer has, and flushes it. Any error is the writer's: then a part of the lines may have been
/// written.
pub fn write_lines<W: Write>(writer: &mut W, lines: &str) -> io::Result<()>
    ensures { OnOk result (Appends (W.contents writer.old) (W.contents writer.new) lines.now) }
{
    writer.write_all(lines.as_bytes())?;
    writer.flush()
}
