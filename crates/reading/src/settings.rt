// SETTINGS of the peer: pairs act in order, and the first one at fault decides.
ghost use Rattle.std.specs.Prelude.{◌≡◌};
ghost use Rattle.frames.specs.Settings.{pairs};
ghost use Rattle.reading.specs.Settings.{settled_by, all_settled, settings_read};

use crate::next::Next;
use frames::code::ErrorCode;
use frames::fault::Fault;
use frames::settings::{Setting, SettingName, SettingsList};
use state::place::Place;
use state::queue::Reply;
use state::search::any_overflows;
use state::streams::Streams;

// What the pairs leave: setting 4, and whether the next response block begins with a new table size of 0.
#[derive(Clone, Copy)]
pub struct Settled {
    pub initial: u32,
    pub shrink: bool,
}

// One pair. It is worked out beside the streams, so that a fault leaves nothing half done.
fn settle_one(
    places: &[Option<Place>; 16],
    settled: Settled,
    setting: Setting,
) -> Result<Settled, Fault>
    ensures { result ≡ settled_by places.now settled setting }
{
    setting.check()?;
    match setting.name {
        SettingName::HeaderTableSize => Ok(Settled {
            shrink: settled.shrink | (setting.value < 4096),
            ..settled
        }),
        SettingName::InitialWindowSize if any_overflows(places, setting.value) => Err(
            Fault::connection(ErrorCode::FlowControlError, 0),
        ),
        SettingName::InitialWindowSize => Ok(Settled {
            initial: setting.value,
            ..settled
        }),
        _ => Ok(settled),
    }
}

// The pairs, one by one.
#[tactic(auto, unfolding(crate::specs::Settings::all_settled))]
fn settle(
    places: &[Option<Place>; 16],
    before: Settled,
    list: SettingsList<'_>,
) -> Result<Settled, Fault>
    ensures { result ≡ all_settled places.now before (pairs list.entry.octets.now) }
{
    let mut settled = before;
    for setting in list.iter() {
        settled = settle_one(places, settled, setting)?;
    }
    Ok(settled)
}

// All pairs; the ACK is queued.
pub fn read_settings(streams: &mut Streams, list: SettingsList<'_>) -> Result<Next, Fault>
    ensures { (result, streams.new) ≡ settings_read streams.old list.entry.octets.now }
{
    let before = Settled {
        initial: streams.initial,
        shrink: streams.shrink,
    };
    let settled = settle(&streams.places, before, list)?;
    streams.initial = settled.initial;
    streams.shrink = settled.shrink;
    Ok(Next::Replies(Reply::SettingsAck))
}
