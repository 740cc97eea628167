// The list of a SETTINGS frame: names and values, six octets a pair.
ghost use Rattle.std.specs.Prelude.{◌≡◌};
ghost use Rattle.std.specs.Result.{result_err};

use crate::code::ErrorCode;
use crate::fault::Fault;
use std::fmt;
use std::marker::Model;

#[derive(Clone, Copy, Debug, PartialEq, Eq)]
pub enum SettingName {
    HeaderTableSize,
    EnablePush,
    MaxConcurrentStreams,
    InitialWindowSize,
    MaxFrameSize,
    MaxHeaderListSize,
    NoRfc7540Priorities,
    Unknown(u16),
}

// The setting that a number names.
impl From<u16> for SettingName {
    ghost use Rattle.frames.specs.Settings.{name_of};

    ghost from_gives = { λ number name. name ≡ name_of number };

    fn from(number: u16) -> SettingName {
        match number {
            1 => SettingName::HeaderTableSize,
            2 => SettingName::EnablePush,
            3 => SettingName::MaxConcurrentStreams,
            4 => SettingName::InitialWindowSize,
            5 => SettingName::MaxFrameSize,
            6 => SettingName::MaxHeaderListSize,
            9 => SettingName::NoRfc7540Priorities,
            _ => SettingName::Unknown(number),
        }
    }
}

impl fmt::Display for SettingName {
    fn fmt<W: fmt::Write>(&self, f: &mut fmt::Formatter<W>) -> fmt::Result {
        let name = match *self {
            SettingName::HeaderTableSize => "HEADER_TABLE_SIZE",
            SettingName::EnablePush => "ENABLE_PUSH",
            SettingName::MaxConcurrentStreams => "MAX_CONCURRENT_STREAMS",
            SettingName::InitialWindowSize => "INITIAL_WINDOW_SIZE",
            SettingName::MaxFrameSize => "MAX_FRAME_SIZE",
            SettingName::MaxHeaderListSize => "MAX_HEADER_LIST_SIZE",
            SettingName::NoRfc7540Priorities => "NO_RFC7540_PRIORITIES",
            SettingName::Unknown(number) => return write!(f, "setting {number}"),
        };
        f.write_str(name)
    }
}

#[derive(Clone, Copy, Debug, PartialEq, Eq)]
pub struct Setting {
    pub name: SettingName,
    pub value: u32,
}

// A pair as it stands in the list.
impl From<[u8; 6]> for Setting {
    ghost use Rattle.frames.specs.Settings.{setting_of};

    ghost from_gives = { λ pair setting. setting ≡ setting_of pair };

    fn from(pair: [u8; 6]) -> Setting {
        let [n0, n1, v0, v1, v2, v3] = pair;
        Setting {
            name: SettingName::from(u16::from_be_bytes([n0, n1])),
            value: u32::from_be_bytes([v0, v1, v2, v3]),
        }
    }
}

impl Setting {
    ghost use Rattle.frames.specs.Settings.{setting_fault};

    // Whether the value is in the range of its own setting; a fault if not. What a lawful value does is the connection's
    // matter.
    pub fn check(self) -> Result<(), Fault>
        ensures { result_err result ≡ setting_fault self }
    {
        let code = match self.name {
            SettingName::EnablePush | SettingName::NoRfc7540Priorities if self.value > 1 =>
                ErrorCode::ProtocolError,
            SettingName::InitialWindowSize if self.value > 0x7fff_ffff =>
                ErrorCode::FlowControlError,
            SettingName::MaxFrameSize if self.value < 16_384 || self.value > 16_777_215 =>
                ErrorCode::ProtocolError,
            _ => return Ok(()),
        };
        Err(Fault::connection(code, 0))
    }
}

// The pairs of one frame, where they stand in the octets that came.
#[derive(Clone, Copy)]
pub struct SettingsList<'a> {
    pub octets: &'a [u8],
}

impl<'a> SettingsList<'a> {
    ghost use Rattle.std.specs.Iterator.{YieldsFirst};
    ghost use Rattle.std.specs.Iterator.Runs.{YieldsInOrder};
    ghost use Rattle.frames.specs.declared.settings.Setting.{Setting};
    ghost use Rattle.frames.specs.Settings.{first_pair, pairs, pairs_in};
    ghost use Rattle.frames.specs.View.{pair_view};

    // The first pair and the list behind it.
    #[tactic(auto, using(crate::proofs::Split::pairs_split))]
    pub fn split_first(self) -> Option<(Setting, SettingsList<'a>)>
        ensures value { pair_view result ≡ first_pair self.entry.octets.now }
        ensures items { pairs self.entry.octets.now ≡ pairs_in (pair_view result) }
    {
        let (pair, rest) = self.octets.split_first_chunk()?;
        Some((Setting::from(*pair), SettingsList { octets: rest }))
    }

    // The pairs in order, which is the order in which they act.
    pub fn iter(self) -> Settings<'a>
        ensures all { result ≡ pairs self.entry.octets.now }
        ensures runs { YieldsInOrder (YieldsFirst {A = Setting} (λ left. left)) (λ left. left) }
    {
        Settings { left: self }
    }
}

// The pairs of a list that are left, seen as the list of them.
#[derive(Drop)]
pub struct Settings<'a> {
    left: SettingsList<'a>,
}

impl<'a> Model for Settings<'a> {
    ghost use Rattle.std.specs.Prelude.{List};
    ghost use Rattle.frames.specs.declared.settings.Setting.{Setting};
    ghost use Rattle.frames.specs.Settings.{pairs};

    ghost Value = { List Setting };

    ghost view = { λ settings. pairs settings.left.octets.now };
}

impl<'a> Iterator for Settings<'a> {
    ghost use Rattle.std.specs.Iterator.{YieldsFirst, item_count};

    type Item = Setting;

    ghost next_gives = { YieldsFirst (λ left. left) };

    ghost remaining = { item_count (λ left. left) };

    fn next(&mut self) -> Option<Setting> {
        let (setting, left) = self.left.split_first()?;
        self.left = left;
        Some(setting)
    }
}
