// The client's greeting, before which no frame can be taken.
ghost use Rattle.std.specs.Prelude.{◌≡◌};
ghost use Rattle.connection.specs.Greeting.{greeted};

use state::refusal::Refusal;

// What every HTTP/2 client sends first.
const PREFACE: &[u8] = b"PRI * HTTP/2.0\r\n\r\nSM\r\n\r\n";

// The mark of a connection that was greeted. Only `greet` makes one, and `open` spends it.
#[derive(Drop)]
pub struct Greeted {
    mark: (),
}

// Are exactly 24 octets given, and are they the preface?
pub fn greet(octets: &[u8]) -> Result<Greeted, Refusal>
    ensures { result ≡ greeted octets.now }
{
    if octets.len() != 24 {
        return Err(Refusal::GreetingLength);
    }
    if octets != PREFACE {
        return Err(Refusal::Greeting);
    }
    Ok(Greeted { mark: () })
}
