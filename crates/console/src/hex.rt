// Text in hexadecimal digits.
ghost use Rattle.std.specs.Prelude.{◌≡◌, true, ◌+◌, ◌*◌, ◌/◌, ◌≤◌, ◌<◌, length, take};
ghost use Rattle.printing.specs.Line.{after_text};
ghost use Rattle.console.specs.Answers.{hex_digit, hex_byte, hex_text};
ghost use Rattle.console.specs.Lines.{hex_value, hex_pairs, hex_bytes, decoded_of};

use crate::input::part;
use printing::{LINE, put};

// Enough bytes for the text of the longest line; and the most that a call is lent.
pub(crate) const TEXT: usize = 70_000;

// How many bytes the digits give, unless they are not pairs of hexadecimal digits.
#[derive(Clone, Copy)]
pub(crate) enum Decoded {
    Bytes(usize),
    Broken,
}

// The value of a digit, 16 for any other byte.
fn digit(x: u8) -> u8
    ensures { result ≡ hex_value x }
{
    if x < b'0' {
        return 16;
    }
    if x <= b'9' {
        return x - b'0';
    }
    if x < b'A' {
        return 16;
    }
    if x <= b'F' {
        return x - 55;
    }
    if x < b'a' {
        return 16;
    }
    if x <= b'f' {
        return x - 87;
    }
    16
}

// The byte of two digits, by their values.
fn pair(high: u8, low: u8) -> u8
    requires { (high < 16) × (low < 16) }
    ensures { result ≡ 16 * high + low }
{
    16 * high + low
}

// Puts the bytes of the digits into the text; broken where they are not pairs of digits, or too many. That the text has its 70,000 places
// is a hypothesis: of an array behind a reference the prover does not know the length by itself.
pub(crate) fn decode(digits: &[u8], text: &mut [u8; TEXT]) -> Decoded
    ensures result { result ≡ decoded_of digits.now }
    ensures bytes { hex_pairs digits.now ≡ true → length digits.now ≤ 140000 → length text.old ≡ 70000 → take (length digits.now / 2) text.new ≡ hex_bytes digits.now }
{
    let n = digits.len() / 2;
    if n + n != digits.len() {
        return Decoded::Broken;
    }
    if TEXT < n {
        return Decoded::Broken;
    }
    let mut i: usize = 0;
    while i < n {
        let high = digit(digits[i + i]);
        let low = digit(digits[i + i + 1]);
        if high >= 16 {
            return Decoded::Broken;
        }
        if low >= 16 {
            return Decoded::Broken;
        }
        text[i] = pair(high, low);
        i += 1;
    }
    Decoded::Bytes(n)
}

// The bytes of the text.
pub(crate) fn text_of(text: &[u8; TEXT], size: usize) -> &[u8]
    ensures { result.now ≡ take size text.now }
{
    part(text, size)
}

// The digit of half a byte.
fn digit_of(half: u8) -> u8
    requires { half < 16 }
    ensures { result ≡ hex_digit half }
{
    if half < 10 {
        return b'0' + half;
    }
    87 + half
}

// Puts the two digits of a byte.
fn put_byte(line: &mut [u8; LINE], at: usize, x: u8) -> usize
    ensures { after_text (line.old, at) (hex_byte x) ≡ (line.new, result) }
{
    put(line, at, &[digit_of(x / 16), digit_of(x % 16)])
}

// Puts the digits of each byte in turn.
pub(crate) fn put_hex(line: &mut [u8; LINE], at: usize, bytes: &[u8]) -> usize
    ensures { after_text (line.old, at) (hex_text bytes.now) ≡ (line.new, result) }
{
    let mut to = at;
    let mut i: usize = 0;
    while i < bytes.len() {
        to = put_byte(line, to, bytes[i]);
        i += 1;
    }
    to
}
