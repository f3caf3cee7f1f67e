//! Decimal numbers.

ghost use Rattle.std.specs.Prelude.{ℕ, ◌≡◌, ◌≢◌, ◌<◌, ◌≤◌, ◌==◌, ◌&&◌, ◌||◌, not, true, length, slice_index, decimal, nat_le, MatchOption};
ghost use Rattle.std.specs.List.{list_all};
ghost use Rattle.std.specs.Char.{is_ascii_digit};
ghost use Rattle.std.specs.Str.Parse.{digits_value};
ghost use Rattle.edit_spec.specs.Grammar.{number_limit};
ghost use Rattle.edit_list.specs.Numerals.{is_numeral};

/// Whether each byte is a digit.
fn are_digits(text: &[u8]) -> bool
    ensures { result ≡ list_all is_ascii_digit text.now }
{
    text.iter().all(|byte| byte.is_ascii_digit())
}

/// Whether a text is a decimal number of at most seven digits, without leading zeros.
fn is_numeral(text: &[u8]) -> bool
    ensures { result ≡ is_numeral text.now }
{
    match text.first() {
        Some(first) => {
            text.len() <= 7 && (*first != b'0' || text.len() == 1) && are_digits(text)
        }
        None => false,
    }
}

/// The number that digits encode.
fn value_of(digits: &[u8]) -> u32
    requires digits { list_all is_ascii_digit digits.now ≡ true }
    requires few { length digits.now ≤ 7 }
    ensures { result ≡ digits_value 10 digits.now }
{
    let mut value = 0;
    for digit in digits {
        value = value * 10 + u32::from(*digit - b'0');
    }
    value
}

/// The number that a text encodes in decimal, with at most seven digits and without leading zeros.
pub fn number_of(text: &[u8]) -> Option<u32>
    ensures { MatchOption result ((n : ℕ) → n < number_limit → text.now ≢ decimal n)
        (λ n. (n < number_limit) × (text.now ≡ decimal n)) }
{
    if is_numeral(text) {
        Some(value_of(text))
    } else {
        None
    }
}
