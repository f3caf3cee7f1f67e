//! Words as text: eight hexadecimal digits, with `a` to `f` in lower case.
#![tactic(auto)]

ghost use Rattle.std.specs.Prelude.{◌≡◌};
ghost use Rattle.std.specs.List.{list_all};
ghost use Rattle.hex_word.specs.Words.{is_word_digit, is_word, word_in};

/// Whether a byte is a hexadecimal digit, in lower case.
fn is_word_digit(b: u8) -> bool
    ensures { result ≡ is_word_digit b }
{
    b.is_ascii_digit() || (b'a' <= b && b <= b'f')
}

/// Whether each byte is a digit.
fn are_word_digits(bytes: &[u8]) -> bool
    ensures { result ≡ list_all is_word_digit bytes.now }
{
    bytes.iter().all(|b| is_word_digit(*b))
}

/// Whether a text is eight digits.
fn is_word(text: &str) -> bool
    ensures { result ≡ is_word text.now }
{
    text.len() == 8 && are_word_digits(text.as_bytes())
}

/// The word that a text encodes, or `None` if it is not eight digits.
#[tactic(auto, using(crate::proofs::Numerals::parsed))]
pub fn word_in(text: &str) -> Option<u32>
    ensures { result ≡ word_in text.now }
{
    if is_word(text) {
        u32::from_str_radix(text, 16).ok()
    } else {
        None
    }
}
