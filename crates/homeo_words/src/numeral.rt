//! The numbers of a command line.

ghost use Rattle.std.specs.Prelude.{◌≡◌, ◌↔◌, ◌<◌, ◌≤◌, ◌^◌, ℕ, true, IfSome, IfNone, Some};
ghost use Rattle.std.specs.List.{list_all};
ghost use Rattle.homeo_syntax.specs.Lexemes.{is_digit, number_value};
ghost use Rattle.homeo_words.specs.Numeral.{IsNumeral};

/// The most digits of a number.
const MOST_DIGITS: usize = 20;

fn are_digits(bytes: &[u8]) -> bool
    ensures { result ≡ list_all is_digit bytes.now }
{
    bytes.iter().all(|byte| *byte >= b'0' && *byte <= b'9')
}

/// The value of digits, or `None` where it is 2^64 or more.
fn value_of(digits: &[u8]) -> Option<u64>
    requires { list_all is_digit digits.now ≡ true }
    ensures value { IfSome result (λ v. number_value digits.now ≡ v) }
    ensures too_large { IfNone result (2 ^ 64 ≤ number_value digits.now) }
{
    let mut value: u64 = 0;
    for digit in digits {
        value = value.checked_mul(10)?.checked_add((*digit - b'0') as u64)?;
    }
    Some(value)
}

/// The value of a word of one to twenty decimal digits, where it lies from `least` to `most`. Leading zeros are allowed.
pub(crate) fn numeral(word: &str, least: u64, most: u64) -> Option<u64>
    ensures { (v : ℕ) → (result ≡ Some v) ↔ IsNumeral least most word.now v }
{
    let digits = word.as_bytes();
    if digits.is_empty() || digits.len() > MOST_DIGITS || !are_digits(digits) {
        return None;
    }
    let value = value_of(digits)?;
    if value < least || value > most {
        return None;
    }
    Some(value)
}
