// The statuses that a response can have.
ghost use Rattle.std.specs.Prelude.{◌≡◌, ◌<◌};
ghost use Rattle.hpack.specs.Responses.{status_number};

#[derive(Clone, Copy, Debug, PartialEq, Eq)]
pub enum Status {
    Ok,
    NoContent,
    NotFound,
    MethodNotAllowed,
    Conflict,
    UriTooLong,
    InsufficientStorage,
}

// The number by which `:status` names it, of three digits.
impl From<Status> for u16 {
    ghost from_gives = { λ status number. (number ≡ status_number status) × (number < 1000) };

    fn from(status: Status) -> u16 {
        match status {
            Status::Ok => 200,
            Status::NoContent => 204,
            Status::NotFound => 404,
            Status::MethodNotAllowed => 405,
            Status::Conflict => 409,
            Status::UriTooLong => 414,
            Status::InsufficientStorage => 507,
        }
    }
}
