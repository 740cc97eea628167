// All of `take` but for the site: its questions in order, one frame, and what is left to do after it.
ghost use Rattle.std.specs.Prelude.{◌≡◌, ◌<◌, length};
ghost use Rattle.tables.specs.DynamicTable.{IsHeld};
ghost use Rattle.taking.specs.Taking.{connection_ended, concluded, framed, stepped};

use crate::ending::{Asks, end_request};
use frames::code::ErrorCode;
use frames::cut::{RawFrame, Unread, cut_frame};
use frames::fault::{Fault, Scope};
use reading::acting::read;
use reading::meeting::{Arrival, arrive};
use reading::next::Next;
use request::record::Record;
use state::engine::Core;
use state::queue::Reply;
use state::refusal::Refusal;
use state::streams::Phase;
use tables::table::Table;

// One frame that was read: how many octets it has, 0 at a fault of the connection; and its fault.
#[derive(Clone, Copy, Debug, PartialEq, Eq)]
pub struct Read {
    pub octets: usize,
    pub fault: Option<Fault>,
}

// One frame that was read, and what the site has to be asked.
#[derive(Clone, Copy)]
pub struct Step {
    pub read: Read,
    pub asks: Option<Asks>,
}

// A fault of the connection frees all places, drops the replies and any unsent GOAWAY, and ends it.
fn end_connection(core: &mut Core, code: ErrorCode)
    ensures { core.new ≡ connection_ended core.old code }
{
    let places = [None; 16];
    core.streams.places = places;
    core.streams.phase = Phase::Ended;
    core.queue.clear();
    core.goaway = Some(code);
}

// What is left to do after the frame's own rules; `octets` is how many the frame has. A fault of a stream frees its
// place and queues RST_STREAM.
fn conclude(
    core: &mut Core,
    outcome: Result<Next, Fault>,
    octets: usize,
    book: &mut [Record],
) -> Step
    requires { length core.old.queue < 32 }
    ensures { (result, core.new, book.new) ≡ concluded core.old outcome octets book.old }
{
    let mut step = Step {
        read: Read {
            octets,
            fault: outcome.err(),
        },
        asks: None,
    };
    match outcome {
        Ok(Next::Done) => {}
        Ok(Next::Replies(reply)) => core.queue.push(reply),
        Ok(Next::Ends(k)) => step.asks = end_request(core, k, book),
        Err(fault) => match fault.scope {
            Scope::Connection => {
                end_connection(core, fault.code);
                step.read.octets = 0;
            }
            Scope::Stream => {
                let _ = arrive(&mut core.streams, fault.place, Arrival::Reset, &[]);
                core.queue.push(Reply::RstStream(fault.place, fault.code));
            }
        },
    }
    step
}

// Reads one whole frame.
fn take_frame(core: &mut Core, table: &mut Table, frame: RawFrame<'_>, book: &mut [Record]) -> Step
    requires { length core.old.queue < 32 }
    ensures value { (result, core.new, table.new, book.new) ≡ framed core.old table.old frame.entry.header frame.entry.payload.now book.old }
    ensures held { IsHeld table.new }
{
    let outcome = read(&mut core.streams, table, frame);
    conclude(core, outcome, 9 + frame.payload.len(), book)
}

// Takes one frame from the front of the octets. The questions, in order: has the connection ended? Do 32 replies wait?
// Are nine octets there, is the length field lawful, is the frame whole? The book is the caller's, lent to each call:
// here and below it goes beside the core, and so does the decoder's table, so that the core is copied as plain memory.
pub fn take_step(
    core: &mut Core,
    table: &mut Table,
    octets: &[u8],
    book: &mut [Record],
) -> Result<Step, Refusal>
    ensures value { (result, core.new, table.new, book.new) ≡ stepped core.old table.old octets.now book.old }
    ensures held { IsHeld table.new }
{
    table.size(); // tells that the entries fit
    if core.streams.phase == Phase::Ended {
        return Err(Refusal::Ended);
    }
    if core.queue.is_full() {
        return Err(Refusal::RepliesWaiting);
    }
    match cut_frame(octets) {
        Err(Unread::Refused(refusal)) => Err(refusal.into()),
        Err(Unread::Faulty(fault)) => Ok(conclude(core, Err(fault), 0, book)),
        Ok(frame) => Ok(take_frame(core, table, frame, book)),
    }
}
