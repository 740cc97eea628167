// Plays the lines of a script, one after the other.
ghost use Rattle.std.specs.Prelude.{◌≡◌, ◌≤◌};
ghost use Rattle.rig.specs.Seen.{seen_after};

use crate::blocks::{Printer, ShownTable};
use crate::fetching::fetched;
use crate::output::Output;
use crate::picking::Contest;
use crate::stop::Stop;
use crate::words::{About, Found, Mark, Said};
use frames::cut::Unread;
use frames::frame::Frame;
use frames::header::Header;
use hpack::decode::decode;
use policies::policy::Policy;
use scheduler::drr::Drr;
use scheduler::meaning::Scheduler as _;
use scheduler::offer::Offer;
use scheduler::pick::Pick;
use scheduler::urgency::Urgency;
use script::line::{Base, Call, Layers, Line, Setting, Site, read_line};
use script::name::Scheduler;
use script::octets::octets;
use script::problem::Problem;
use std::alloc::Global;
use std::cell::Cell;
use std::io;
use tables::table::Table;
use wire::read::{Read, read_frame};

// What lasts from line to line: the highest stream of the HEADERS so far, whether a call was made, the scheduler and
// what it is offered, the site, and the table of field blocks.
#[derive(Drop)]
pub struct Player {
    pub seen: u32,
    pub begun: bool,
    pub contest: Contest,
    pub site: Site<Vec<u8>>,
    pub table: Table,
}

// The highest stream seen after octets were read: a frame of HEADERS raises it, and what is not read changes nothing.
fn noted(seen: u32, read: Result<Read<'_>, Unread>) -> u32
    ensures { result ≡ seen_after seen read.entry }
{
    match read {
        Ok(
            Read {
                frame: Frame::Headers { stream, .. },
                ..
            },
        ) => seen.max(stream),
        _ => seen,
    }
}

// Prints what a run of picks gave to each place that offers.
fn shares(output: Output<'_>, contest: &Contest, picks: &[Pick], lag: u64) -> io::Result<()> {
    let offering = contest
        .offers
        .iter()
        .enumerate()
        .filter(|(_, offer)| offer.has_octets());
    for (place, _) in offering {
        let share = contest.share(picks, place);
        output.tell(format_args!("share {share} lag {lag}"))?;
    }
    Ok(())
}

impl Player {
    // Nothing seen, nobody offers; deficit round robin over the line test.
    pub fn new() -> Player
        ensures { result.seen ≡ 0 }
    {
        Player {
            seen: 0,
            begun: false,
            contest: Contest {
                policy: Policy::RoundRobin(Drr::new()),
                offers: [Offer::nothing(); 16],
            },
            site: Site {
                layers: Layers::Zero,
                base: Base::LineTest,
            },
            table: Table::new(),
        }
    }

    // Reads the frame in the octets and prints what it says.
    fn take<'a>(&mut self, output: Output<'_>, hex: &'a str) -> Result<(), Stop<'a>>
        ensures { self.old.seen ≤ self.new.seen }
    {
        let octets = octets(output.rt.alloc(), hex)?;
        let read = read_frame(&octets, self.seen);
        self.seen = noted(self.seen, read);
        match read {
            Ok(Read { frame, length }) => {
                output.tell(format_args!("take read {length}  # {}", Said(frame)))?;
            }
            Err(Unread::Refused(refusal)) => {
                let number = u8::from(refusal);
                output.tell(format_args!("take refused {number}  # the frame is not whole"))?;
            }
            Err(Unread::Faulty(fault)) => {
                let about = About(Header::split(&octets).map(|(header, _)| header));
                output.tell(format_args!(
                    "take read 0 fault {}  # {about}{} ends the connection",
                    Mark(fault),
                    fault.code
                ))?;
            }
        }
        Ok(())
    }

    // Makes picks and prints each, then what the run gave to each place that offers.
    fn pick<'a>(&mut self, output: Output<'_>, count: usize) -> Result<(), Stop<'a>>
        ensures { self.new.seen ≡ self.old.seen }
    {
        let lag = self.contest.policy.lag();
        let picks = self.contest.picks(output.rt.alloc(), count)?;
        for Pick { place, charge } in &picks {
            output.tell(format_args!("pick place {place} charge {charge}"))?;
        }
        if picks.len() < count {
            output.tell("pick none  # nobody offers")?;
        }
        shares(output, &self.contest, &picks, lag)?;
        Ok(())
    }

    // Opens a path at place 0 of the site and prints what it names.
    fn fetch<'a>(&self, output: Output<'_>, path: &str) -> Result<(), Stop<'a>> {
        match fetched(&self.site, path.as_bytes()) {
            Ok(Some(survey)) => output.tell(format_args!("fetch {}", Found(survey)))?,
            Ok(None) => output.tell("fetch unnamed  # the site has no such path")?,
            Err(refusal) => output.tell(format_args!(
                "fetch refused {}  # the shelf is malformed",
                u8::from(refusal)
            ))?,
        }
        Ok(())
    }

    // Decodes a field block with the table that the blocks before it left, and prints fields and table.
    fn block<'a>(&mut self, output: Output<'_>, hex: &'a str) -> Result<(), Stop<'a>>
        ensures { self.new.seen ≡ self.old.seen }
    {
        let octets = octets(output.rt.alloc(), hex)?;
        let mut printer = Printer {
            output,
            failed: Cell::new(false),
        };
        let decoded = decode(&mut self.table, &octets, &mut printer);
        if printer.failed.get() {
            return Err(Stop::LostField);
        }
        match decoded {
            Ok(()) => output.tell("block ok  # decoded to its end")?,
            Err(place) => output.tell(format_args!(
                "block fault C9 at {place}  # the table stays as it was then"
            ))?,
        }
        let table = ShownTable {
            table: &self.table,
            line: output.line,
        };
        println!(output.rt; "{table}")?;
        Ok(())
    }

    // One call.
    fn call<'a>(&mut self, output: Output<'_>, call: Call<'a>) -> Result<(), Stop<'a>>
        ensures { self.old.seen ≤ self.new.seen }
    {
        let name = match call {
            Call::Take(hex) => return self.take(output, hex),
            Call::Offers(offers) => {
                self.contest.offers = offers;
                return Ok(());
            }
            Call::Pick(count) => return self.pick(output, count.value as usize),
            Call::Fetch(path) => return self.fetch(output, path),
            Call::Block(hex) => return self.block(output, hex),
            Call::Greet(hex) => {
                let _preface = octets(output.rt.alloc(), hex)?;
                "greet"
            }
            Call::Send(_) => "send",
            Call::Claim => "claim",
            Call::Answer { .. } => "answer",
            Call::Shut => "shut",
        };
        output.tell(format_args!("{name} not available yet  # this rig has no connection yet"))?;
        Ok(())
    }

    // One setting.
    fn set<'a>(&mut self, heap: Global, setting: Setting<'a>) -> Result<(), Problem<'a>>
        ensures { self.new.seen ≡ self.old.seen }
    {
        match setting {
            Setting::Scheduler(scheduler) => {
                self.contest.policy = match scheduler {
                    Scheduler::Drr => Policy::RoundRobin(Drr::new()),
                    Scheduler::Urgency => Policy::Leashed(Urgency::new()),
                };
            }
            Setting::Site(site) => {
                let base = match site.base {
                    Base::LineTest => Base::LineTest,
                    Base::Shelf(hex) => Base::Shelf(octets(heap, hex)?),
                };
                self.site = Site {
                    layers: site.layers,
                    base,
                };
            }
            Setting::Book(_) | Setting::Show(_) => {}
        }
        Ok(())
    }

    // One line: a setting only before all calls.
    pub fn play<'a>(&mut self, output: Output<'_>, text: &'a str) -> Result<(), Stop<'a>>
        ensures { self.old.seen ≤ self.new.seen }
    {
        match read_line(text)? {
            Line::Blank => Ok(()),
            Line::Setting(_) if self.begun => Err(Problem::LateSetting.into()),
            Line::Setting(setting) => Ok(self.set(output.rt.alloc(), setting)?),
            Line::Call(call) => {
                self.begun = true;
                self.call(output, call)
            }
        }
    }
}
