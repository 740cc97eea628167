// What a place offers to send at once: at most 1,024 octets of a stream, at one of eight urgencies, 0 the most urgent.
ghost use Rattle.std.specs.Prelude.{◌≤◌};

// T: the largest charge of an offer.
pub(crate) const LARGEST_CHARGE: u32 = 860160;

#[derive(Clone, Copy)]
pub struct Offer {
    pub(crate) octets: u16,
    pub(crate) urgency: u8,
    pub(crate) incremental: bool,
    pub(crate) stream: u32,
    ghost small: { octets ≤ 1024 },
    ghost ranked: { urgency ≤ 7 },
}

// What each of the sixteen places offers.
pub type Row = [Offer; 16];

// Why an offer is refused.
#[derive(Clone, Copy, PartialEq, Eq, Debug)]
pub enum OutOfRange {
    Octets,
    Urgency,
}

impl Offer {
    ghost use Rattle.std.specs.Prelude.{◌≡◌, ◌<◌, false, Ok, nat_lt};
    ghost use Rattle.scheduler.specs.Offers.{charge_of, largest, Made};

    // The offer, or which number is outside its range.
    pub fn new(
        octets: u16,
        urgency: u8,
        incremental: bool,
        stream: u32,
    ) -> Result<Offer, OutOfRange>
        ensures { Made octets urgency incremental stream result }
    {
        if octets > 1024 {
            return Err(OutOfRange::Octets);
        }
        if urgency > 7 {
            return Err(OutOfRange::Urgency);
        }
        Ok(Offer {
            octets,
            urgency,
            incremental,
            stream,
        })
    }

    // What a place offers that has nothing to send.
    pub fn nothing() -> Offer
        ensures { Made 0 0 false 0 (Ok result) }
    {
        Offer {
            octets: 0,
            urgency: 0,
            incremental: false,
            stream: 0,
        }
    }

    pub fn octets(&self) -> u16
        ensures { result ≡ self.now.octets }
    {
        self.octets
    }

    // How urgent it is, 0 the most.
    pub fn urgency(&self) -> u8
        ensures value { result ≡ self.now.urgency }
        ensures bound { result ≤ 7 }
    {
        self.urgency // of eight
    }

    // Whether its octets are of use as they come.
    pub fn incremental(&self) -> bool
        ensures { result ≡ self.now.incremental }
    {
        self.incremental
    }

    // The stream that it is for.
    pub fn stream(&self) -> u32
        ensures { result ≡ self.now.stream }
    {
        self.stream
    }

    // Whether there is anything to send.
    pub fn has_octets(&self) -> bool
        ensures { result ≡ nat_lt 0 self.now.octets }
    {
        0 < self.octets
    }

    // What sending it costs its place.
    pub fn charge(&self) -> u32
        ensures value { result ≡ charge_of self.now }
        ensures most { result ≤ largest }
    {
        u32::from(self.octets) * 840 / (8 - u32::from(self.urgency))
    }
}
