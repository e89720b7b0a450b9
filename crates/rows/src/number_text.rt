//! Numbers: an optional minus and one to ten digits.
ghost use Rattle.std.specs.Prelude.{◌≡◌, ◌^◌, ◌<◌, ◌&&◌, length, pos, IfSome, nat_le};
ghost use Rattle.std.specs.Option.{option_map};
ghost use Rattle.rows.specs.Numbers.{is_digit, unsigned, number, NumberGrammar};

const MOST_DIGITS: usize = 10;

fn is_digit(byte: u8) -> bool
    ensures { result ≡ is_digit byte }
{
    byte.is_ascii_digit()
}

fn right_length(text: &[u8]) -> bool
    ensures { result ≡ (nat_le 1 (length text.now) && nat_le (length text.now) 10) }
{
    (1..=MOST_DIGITS).contains(&text.len())
}

// Read by hand: the library's parse takes a plus and any number of digits, and is asked of a `str`.
fn unsigned_number(text: &[u8]) -> Option<u64>
    ensures value { result ≡ unsigned text.now }
    ensures bound { IfSome result (λ n. n < 10 ^ 10) }
{
    if !right_length(text) {
        return None;
    }
    let mut value = 0;
    for byte in text {
        if !is_digit(*byte) {
            return None;
        }
        value = 10 * value + u64::from(*byte - b'0');
    }
    Some(value)
}

// The number, which has at most ten digits and so always fits.
fn plain_number(text: &[u8]) -> Option<i64>
    ensures { result ≡ option_map pos (unsigned text.now) }
{
    i64::try_from(unsigned_number(text)?).ok()
}

/// The number that the text writes; none where it writes no number.
pub fn read_number(text: &[u8]) -> Option<i64>
    ensures reads { result ≡ number text.now }
    ensures grammar { NumberGrammar text.now result }
{
    match text {
        [b'-', digits @ ..] => Some(-plain_number(digits)?),
        _ => plain_number(text),
    }
}

#[cfg(test)]
mod tests {
    use super::*;

    #[test]
    fn decimal_writings_are_numbers(rt: HostRuntime) {
        assert_eq!(rt; read_number(b"-0"), Some(0));
        assert_eq!(rt; read_number(b"007"), Some(7));
        assert_eq!(rt; read_number(b"-9999999999"), Some(-9_999_999_999));
    }

    #[test]
    fn other_texts_are_not(rt: HostRuntime) {
        assert_eq!(rt; read_number(b""), None);
        assert_eq!(rt; read_number(b"-"), None);
        assert_eq!(rt; read_number(b"+5"), None);
        assert_eq!(rt; read_number(b"00000000001"), None);
    }
}
