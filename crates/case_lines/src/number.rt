ghost use Rattle.std.specs.Prelude.{◌≡◌, ◌<◌, IfSome};
ghost use Rattle.case_lines.specs.Number.{number_of, positive_of, with_digit};

/// The number that decimal digits write, where it is below 2^64.
pub fn number_of(text: &[u8]) -> Option<u64>
    ensures { result ≡ number_of text.now }
{
    if text.is_empty() {
        return None;
    }
    let mut number = 0;
    for digit in text {
        number = with_digit(number, *digit)?;
    }
    Some(number)
}

/// The same where it is not 0, as counts of calls and of bytes are.
pub fn positive_of(text: &[u8]) -> Option<u64>
    ensures value { result ≡ positive_of text.now }
    ensures positive { IfSome result (λ number. 0 < number) }
{
    match number_of(text)? {
        0 => None,
        number => Some(number),
    }
}

fn with_digit(number: u64, digit: u8) -> Option<u64>
    ensures { result ≡ with_digit number digit }
{
    if !digit.is_ascii_digit() {
        return None;
    }
    number.checked_mul(10)?.checked_add(u64::from(digit - b'0'))
}
