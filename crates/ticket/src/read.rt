ghost use Rattle.std.specs.Prelude.{◌≡◌};
ghost use Rattle.ticket.specs.Reading.{FieldsRead, spot_after};

use crate::job::{Job, Spot};
use crate::reader::{Reader, Wrong};
use tree::geometry::Heights;
use tree::seed::SEED_LENGTH;

/// Reads the fields of a ticket, and its seed; or finds the first byte that no ticket has there.
pub(crate) fn fields(text: &[u8], seed: &mut [u8; SEED_LENGTH]) -> Result<Job, Wrong>
    ensures { FieldsRead text.now seed.new result }
{
    let mut reader = Reader::new(text);
    reader.literal(b"maker ")?;
    let kind = reader.kind()?;
    reader.literal(b"height ")?;
    let height = reader.number()?;
    reader.literal(b"subtree ")?;
    let subtree = reader.number()?;
    reader.literal(b"seed ")?;
    reader.seed(seed)?;
    reader.literal(b"\n")?;
    reader.end()?;
    Ok(Job {
        kind,
        heights: Heights { height, subtree },
    })
}

/// The line and the column that come after some bytes.
pub(crate) fn spot(before: &[u8]) -> Spot
    ensures { (result.line, result.column) ≡ spot_after before.now 1 0 }
{
    let mut line = 1;
    let mut column = 0;
    for byte in before {
        if *byte == b'\n' {
            line += 1;
            column = 0;
        } else {
            column += 1;
        }
    }
    Spot { line, column }
}
