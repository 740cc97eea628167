// What a field is by its name.
ghost use Rattle.std.specs.Prelude.{◌≡◌};
ghost use Rattle.request.specs.Kinds.{kind_of};

// A request may have four names with a colon in front; of the others, the plain ones, one is of use.
#[derive(Clone, Copy, Debug, PartialEq, Eq)]
pub enum Kind {
    Method,
    Scheme,
    Path,
    Authority,
    OtherColon,
    Priority,
    OtherPlain,
}

// The kind of a name; an empty one is plain.
impl From<&[u8]> for Kind {
    ghost from_gives = { λ name kind. kind ≡ kind_of name.now };

    fn from(name: &[u8]) -> Kind {
        match name {
            b":method" => Kind::Method,
            b":scheme" => Kind::Scheme,
            b":path" => Kind::Path,
            b":authority" => Kind::Authority,
            [b':', ..] => Kind::OtherColon,
            b"priority" => Kind::Priority,
            _ => Kind::OtherPlain,
        }
    }
}
