//! Digits as numbers.

ghost use Rattle.std.specs.Prelude.{◌≡◌, ◌≤◌, ℕ, not, position, decimal, IfOk};
ghost use Rattle.ddm_text.specs.Numbers.{number_stop, number_of, is_digit, at_most, value_of};

/// Why bytes aren't a number.
#[derive(Clone, Copy, Debug, PartialEq, Eq)]
pub enum NumberRefusal {
    /// The place of the first byte, or the end, at which they stop being the front of a number.
    NotANumber(usize),
    /// The number is above the limit.
    TooLarge,
}

fn is_digit(byte: u8) -> bool
    ensures { result ≡ is_digit byte }
{
    b'0' <= byte && byte <= b'9'
}

// The place of the first byte that isn't a digit.
fn first_other(bytes: &[u8]) -> Option<usize>
    ensures { result ≡ position (λ byte. not (is_digit byte)) bytes.now }
{
    bytes.iter().position(|byte| !is_digit(*byte))
}

// The place at which bytes stop being the front of a number, where they aren't one.
#[tactic(auto, unfolding(crate::specs::Numbers::number_stop))]
fn number_stop(bytes: &[u8]) -> Option<usize>
    ensures { result ≡ number_stop bytes.now }
{
    if bytes.is_empty() {
        return Some(0);
    }
    if bytes[0] == b'0' {
        return if bytes.len() == 1 { None } else { Some(1) };
    }
    first_other(bytes)
}

// The value of digits, unless it is above the limit.
fn value_at_most(bytes: &[u8], most: u64) -> Result<u64, NumberRefusal>
    ensures { result ≡ at_most most (value_of bytes.now) }
{
    let mut value: u64 = 0;
    'digits: for byte in bytes {
        let digit = u64::from(byte.saturating_sub(b'0'));
        if most < digit || (most - digit) / 10 < value {
            return Err(NumberRefusal::TooLarge);
        }
        value = value * 10 + digit;
    }
    Ok(value)
}

/// Reads a decimal number: `0`, or a digit 1 to 9 followed by digits.
#[tactic(auto, unfolding(crate::specs::Numbers::number_of))]
pub fn read_decimal(bytes: &[u8], most: u64) -> Result<u64, NumberRefusal>
    ensures number { result ≡ number_of bytes.now most }

    // The bytes are the number's one spelling, and that spelling is read.
    ensures spelled { IfOk result (λ n. bytes.now ≡ decimal n) }
    ensures read { (n : ℕ) → n ≤ most → bytes.now ≡ decimal n → result ≡ Ok n }
{
    match number_stop(bytes) {
        Some(place) => Err(NumberRefusal::NotANumber(place)),
        None => value_at_most(bytes, most),
    }
}
