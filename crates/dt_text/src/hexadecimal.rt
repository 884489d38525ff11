//! Words of hexadecimal digits, and the octets that they spell.
ghost use Rattle.std.specs.Prelude.{◌≡◌, ◌<◌, ◌/◌, length, vec_len, vec_capacity, IsTrue, OnOk, OnErr};
ghost use Rattle.std.specs.List.{list_all};
ghost use Rattle.std.specs.Char.{digit_value, is_ascii_hexdigit};
ghost use Rattle.dt_text.specs.Hexadecimal.{is_hex, are_pairs, octets_of_hex};

use dt_items::NoMemory;

/// Whether all octets are hexadecimal digits.
fn are_digits(word: &[u8]) -> bool
    ensures { result ≡ list_all is_ascii_hexdigit word.now }
{
    word.iter().all(|octet| octet.is_ascii_hexdigit())
}

/// Whether a word is 1 to `most` pairs of hexadecimal digits, in either case. The cost is the word.
pub fn is_hex(word: &[u8], most: u32) -> bool
    ensures { result ≡ is_hex most word.now }
{
    let len = word.len() as u64;
    len > 0 && len <= 2 * u64::from(most) && len % 2 == 0 && are_digits(word)
}

/// The value of a hexadecimal digit, 0 to 15.
fn value_of(digit: u8) -> u8
    requires { IsTrue (is_ascii_hexdigit digit) }
    ensures value { result ≡ digit_value digit }
    ensures within { result < 16 }
{
    match digit {
        b'0'..=b'9' => digit - b'0',
        b'a'..=b'f' => digit - b'a' + 10,
        _ => digit - b'A' + 10,
    }
}

/// Puts the octets that pairs of hexadecimal digits spell in place of what was there. `NoMemory`
/// changes nothing, and comes only where there is no room for the octets. The cost is the digits.
pub fn decode_hex(hex: &[u8], octets: &mut Vec<u8>) -> Result<(), NoMemory>
    requires { IsTrue (are_pairs hex.now) }
    ensures ok { OnOk result (octets.new.items ≡ octets_of_hex hex.now) }
    ensures len { OnOk result (vec_len octets.new ≡ length hex.now / 2) }
    ensures unchanged { OnErr result (octets.new.items ≡ octets.old.items) }
    ensures no_room { OnErr result (vec_capacity octets.old < length hex.now / 2) }
{
    octets.resize(hex.len() / 2, 0)?;
    for i in 0..octets.len() {
        octets[i] = 16 * value_of(hex[2 * i]) + value_of(hex[2 * i + 1]);
    }
    Ok(())
}
