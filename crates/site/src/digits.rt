// The numbers that octets write in digits.
ghost use Rattle.std.specs.Prelude.{◌≡◌, ◌≤◌, length, IfSome};
ghost use Rattle.site.specs.Texts.{digit_of, number_of, read_on};

// The value of a digit.
fn digit(c: u8) -> Option<u32>
    ensures value { result ≡ digit_of c }
    ensures bound { IfSome result (λ d. d ≤ 9) }
{
    char::from(c).to_digit(10)
}

// The value of at most nine digits, read one by one: `parse` would also take a sign.
#[tactic(auto, using(crate::proofs::Reading::read_end, crate::proofs::Reading::read_other))]
fn digits(text: &[u8]) -> Option<u32>
    requires { length text.now ≤ 9 }
    ensures { result ≡ read_on 0 text.now }
{
    let mut value = 0;
    for c in text {
        value = value * 10 + digit(*c)?;
    }
    Some(value)
}

// The number that `text` writes in 1 to 9 digits without leading zeros.
pub fn number(text: &[u8]) -> Option<u32>
    ensures { result ≡ number_of text.now }
{
    match text {
        [] | [b'0', _, ..] => None,
        _ if text.len() > 9 => None,
        _ => digits(text),
    }
}
