// Decodes as many blocks as its three arguments say, for an instruction count of each kind of block:
// mixed (8 fields, of which 2 are added and drop older ones), indexed (8 indexed fields), and worst
// (4,096 octets, each of which names an entry that fills the whole table).
#![tactic(auto)]

ghost use Rattle.std.specs.Prelude.{◌≡◌};
ghost use Rattle.field_bench.specs.Tallies.{repeated};

mod tally;

use anyhow::Context;
use std::{env, io};
use tables::table::Table;
use tally::{Tally, repeat};

// :method, :scheme, :path; :authority and a field of its own are added; then these two again, and accept-encoding.
const MIXED: &[u8; 59] =
    b"\x82\x87\x04\x0a/line/1000\x41\x0fwww.example.com\x40\x0acustom-key\x0ccustom-value\xbe\xbf\x90";

const INDEXED: &[u8; 8] = b"\x82\x86\x84\x90\xbe\xbf\xbe\xbf";

const WORST: [u8; 4096] = [0xbe; 4096];

// Decodes a block so many times, and tells what came of it.
fn tell(
    rt: &HostRuntime,
    name: &str,
    table: &mut Table,
    block: &[u8],
    turns: usize,
) -> io::Result<()>
    ensures { table.new ≡ (repeated turns block.now (table.old, record { fields = 0; octets = 0 })).0 }
{
    let mut tally = Tally::default();
    repeat(table, block, turns, &mut tally);
    println!(rt; "{name}: {turns} blocks, {tally}")
}

fn main(rt: HostRuntime) -> anyhow::Result<()> {
    let mut words = env::args(&rt)?.skip(1);
    let mut counts = [0usize; 3];
    for count in counts.iter_mut() {
        let word = words.next().context("three numbers of blocks are needed")?;
        *count = word.parse::<usize>()?;
    }
    let [mixed, indexed, worst] = counts;
    let mut table = Table::new();
    tell(&rt, "mixed", &mut table, MIXED, mixed)?;
    tell(&rt, "indexed", &mut table, INDEXED, indexed)?;
    table.insert(b"x", &[b'v'; 4063]);
    tell(&rt, "worst", &mut table, &WORST, worst)?;
    Ok(())
}
