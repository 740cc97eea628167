// Why a call did nothing; everything is as it was.
ghost use Rattle.std.specs.Prelude.{◌≡◌};
ghost use Rattle.state.specs.Refusals.{refusal_number, refusal_of};

use frames::cut;

#[derive(Clone, Copy, PartialEq, Eq, Debug)]
pub enum Refusal {
    // greet: not exactly 24 octets.
    GreetingLength,
    // greet: not the client's preface.
    Greeting,
    // take: the connection has ended.
    Ended,
    // take: 32 replies wait to be sent.
    RepliesWaiting,
    // take: the frame is not whole yet.
    Incomplete,
}

// The refusal's number.
impl From<Refusal> for u8 {
    ghost from_gives = { λ refusal number. number ≡ refusal_number refusal };

    fn from(refusal: Refusal) -> u8 {
        match refusal {
            Refusal::GreetingLength => 10,
            Refusal::Greeting => 11,
            Refusal::Ended => 20,
            Refusal::RepliesWaiting => 21,
            Refusal::Incomplete => 22,
        }
    }
}

// What refuses to cut a frame refuses to take it.
impl From<cut::Refusal> for Refusal {
    ghost from_gives = { λ refusal taken. taken ≡ refusal_of refusal };

    fn from(refusal: cut::Refusal) -> Refusal {
        match refusal {
            cut::Refusal::Incomplete => Refusal::Incomplete,
        }
    }
}
