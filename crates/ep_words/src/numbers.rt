//! Numbers among the words.

ghost use Rattle.std.specs.Prelude.{◌≡◌, ◌≤◌, nat_le, if◌then◌else◌, IfSome, Some, None};
ghost use Rattle.std.specs.List.{list_all};
ghost use Rattle.ep_words.specs.Words as rule;

/// The most digits of a number.
const MOST_DIGITS: usize = 20;

fn are_digits(bytes: &[u8]) -> bool
    ensures { result ≡ list_all rule.is_digit bytes.now }
{
    bytes.iter().all(|b| b.is_ascii_digit())
}

// The number of digits, if it is no greater than `most`.
fn value_to(most: u64, digits: &[u8]) -> Option<u64>
    ensures value { result ≡ (if nat_le (rule.digits_value digits.now) most
        then Some (rule.digits_value digits.now) else None) }
    ensures within { IfSome result (λ n. n ≤ most) }
{
    let most = most as u128;
    let mut value: u128 = 0;
    for digit in digits {
        if value > most {
            return None;
        }
        value = value * 10 + digit.saturating_sub(b'0') as u128;
    }
    if value > most {
        return None;
    }
    Some(value as u64)
}

/// The number of 1 to 20 decimal digits, if the word is so and its number no greater than `most`.
pub(crate) fn number(most: u64, word: &str) -> Option<u64>
    ensures value { result ≡ rule.number most word.now }
    ensures within { IfSome result (λ n. n ≤ most) }
{
    let digits = word.as_bytes();
    if digits.is_empty() || digits.len() > MOST_DIGITS || !are_digits(digits) {
        return None;
    }
    value_to(most, digits)
}
