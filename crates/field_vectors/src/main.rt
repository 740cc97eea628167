// Runs the examples of RFC 7541, Appendix C, that use no Huffman coding, and a few on the house rules, and prints what
// it finds in the layout of the RFC.
#![tactic(auto)]

mod case;
mod shown;

use anyhow::{Context, anyhow};
use case::{integer_of, octets_of};
use hpack::decode::decode;
use shown::{Printer, ShownInteger, ShownTable};
use std::cell::Cell;
use std::{env, fs};
use tables::table::Table;

// A line of the file has a word and a value; 'integer BITS HEX', 'table SIZE' (a new table) and 'block HEX' are run,
// and others, as titles, are printed.
fn main(rt: HostRuntime) -> anyhow::Result<()> {
    let path = env::args(&rt)?
        .nth(1)
        .context("the file of cases is needed")?;
    let text = fs::read_to_string(&rt, path.as_str())?;
    let mut table = Table::new();
    let mut printer = Printer {
        rt: &rt,
        failed: Cell::new(false),
    };
    for line in text.as_str().lines() {
        match line.split_once(' ') {
            None => {}
            Some(("integer", rest)) => {
                let (bits, hex) = rest.split_once(' ').context("no octets")?;
                let octets = octets_of(rt.alloc(), hex)?;
                println!(rt;
                    "{}",
                    ShownInteger(integer_of(bits.parse::<u8>()?, octets.as_slice()))
                )?;
            }
            Some(("table", size)) => {
                table = Table::new();
                table.resize(size.parse::<usize>()?)?;
            }
            Some(("block", hex)) => {
                let octets = octets_of(rt.alloc(), hex)?;
                match decode(&mut table, octets.as_slice(), &mut printer) {
                    Ok(()) => println!(rt; "{}", ShownTable(&table))?,
                    Err(place) => println!(rt; "fault at octet {place}")?,
                }
            }
            Some(_) => println!(rt; "{line}")?,
        }
    }
    if printer.failed.get() {
        return Err(anyhow!("a field could not be printed"));
    }
    Ok(())
}
