// A field block, read as a request or as trailers.
ghost use Rattle.std.specs.Prelude.{◌≡◌, ◌<◌, length, IfErr};
ghost use Rattle.request.specs.Requests.{block_read};
ghost use Rattle.tables.specs.DynamicTable.{IsHeld};

use crate::heard::Heard;
use crate::summary::Summary;
use hpack::decode::decode;
use tables::table::Table;

// Reads a whole block, or answers the place of its fault; the table goes on in both cases.
pub fn read_block(table: &mut Table, block: &[u8]) -> Result<Heard, usize>
    ensures value { (result, table.new) ≡ block_read table.old block.now }
    ensures bound { IfErr result (λ p. p < length block.now) }
    ensures held { IsHeld table.new }
{
    let mut summary = Summary::new();
    decode(table, block, &mut summary)?;
    Ok(summary.heard())
}
