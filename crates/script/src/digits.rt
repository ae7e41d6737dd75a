// Octets and numbers from the digits of a field.
ghost use Rattle.std.specs.Prelude.{◌≡◌, IfOk, vec_items};
ghost use Rattle.std.specs.Option.{option_map};
ghost use Rattle.std.specs.Char.{is_ascii_digit};
ghost use Rattle.std.specs.List.{list_all};
ghost use Rattle.script.specs.Digits.{hex_digit, octets_read, octet_read, number_read};

use std::alloc::{AllocError, Global};

// The most decimal digits of a number.
const MOST_DIGITS: usize = 10;

// The value of an upper-case hexadecimal digit; `char::to_digit` takes a to f too.
fn hex_digit(c: u8) -> Option<u8>
    ensures { result ≡ hex_digit c }
{
    match c {
        b'0'..=b'9' => Some(c - b'0'),
        b'A'..=b'F' => Some(c - b'A' + 10),
        _ => None,
    }
}

// The octet of one pair of hexadecimal digits.
pub fn read_octet(text: &[u8]) -> Option<u8>
    ensures { result ≡ octet_read text.now }
{
    let [high, low] = text else {
        return None;
    };
    Some(hex_digit(*high)? * 16 + hex_digit(*low)?)
}

// The octets of pairs of hexadecimal digits.
pub fn read_octets(heap: Global, text: &[u8]) -> Result<Option<Vec<u8>>, AllocError>
    ensures { IfOk result (λ o. option_map vec_items o ≡ octets_read text.now) }
{
    let mut octets = Vec::new(heap);
    for pair in text.chunks(2) {
        // No `?`: that a text is none is an answer, beside the error of memory.
        let Some(octet) = read_octet(pair) else {
            return Ok(None);
        };
        octets.push(octet)?;
    }
    Ok(Some(octets))
}

// Whether all of a text is decimal digits.
fn is_digits(text: &[u8]) -> bool
    ensures { result ≡ list_all is_ascii_digit text.now }
{
    text.iter().all(|c| c.is_ascii_digit())
}

// The number of 1 to 10 decimal digits.
#[tactic(auto, using(crate::proofs::Numerals::too_long, crate::proofs::Numerals::not_digits, crate::proofs::Numerals::digits_text, crate::proofs::Numerals::number_parsed))]
pub fn read_number(text: &[u8]) -> Option<u64>
    ensures { result ≡ number_read text.now }
{
    if text.len() > MOST_DIGITS || !is_digits(text) {
        return None;
    }
    std::str::from_utf8(text).ok()?.parse().ok()
}
