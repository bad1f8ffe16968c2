// Answers as text. A line is put together in an array of the caller's, so that a program can write it at once.
#![tactic(auto)]

ghost use Rattle.std.specs.Prelude.{◌≡◌, take};
ghost use Rattle.network.specs.Demand.{letter_of};
ghost use Rattle.printing.specs.Printed.{whole_of, amount_of, decimal, next_text, amperes_text, letter_text};
ghost use Rattle.printing.specs.Line.{after_text};

use network::query::{Amperes, Verdict};

// The most bytes of a line: four numbers of ten digits and seven of twenty stay below it.
pub const LINE: usize = 256;

// x without its fraction, 0 where that is no number of 64 bits.
pub fn number_of(x: f64) -> u64
    ensures { result ≡ whole_of x }
{
    if x > -1.0 {
        if x < 18446744073709551616.0 {
            return std::num::truncating_f64_to_u64(x);
        }
    }
    0
}

// W, O or C.
pub fn letter(v: Verdict) -> u8
    ensures { result ≡ letter_of v }
{
    match v {
        Verdict::Within(_) => b'W',
        Verdict::Over(_) => b'O',
        Verdict::Close => b'C',
    }
}

// The margin or the excess, 0 for close.
pub fn amount(v: Verdict) -> f64
    ensures { result ≡ amount_of v }
{
    match v {
        Verdict::Within(x) => x,
        Verdict::Over(x) => x,
        Verdict::Close => 0.0,
    }
}

// Puts bytes into the line from a place on, and gives the place after them. What the line has no room for is left out.
pub fn put(line: &mut [u8; LINE], at: usize, bytes: &[u8]) -> usize
    ensures { after_text (line.old, at) bytes.now ≡ (line.new, result) }
{
    let mut to = at;
    let mut i: usize = 0;
    while i < bytes.len() {
        if to < LINE {
            line[to] = bytes[i];
            to += 1;
        }
        i += 1;
    }
    to
}

// Puts a number in decimal digits.
pub fn put_number(line: &mut [u8; LINE], at: usize, n: u64) -> usize
    ensures { after_text (line.old, at) (decimal n) ≡ (line.new, result) }
{
    let mut digits = [0u8; 20];
    let k = io::decimal(n, &mut digits);
    put(line, at, &digits[..k])
}

// Puts a comma and a number.
pub fn put_next(line: &mut [u8; LINE], at: usize, n: u64) -> usize
    ensures { after_text (line.old, at) (next_text n) ≡ (line.new, result) }
{
    let to = put(line, at, b",");
    put_number(line, to, n)
}

// Puts a comma and a current without its fraction.
fn put_current(line: &mut [u8; LINE], at: usize, x: f64) -> usize
    ensures { after_text (line.old, at) (next_text (whole_of x)) ≡ (line.new, result) }
{
    put_next(line, at, number_of(x))
}

// Puts the six amperes, each after a comma.
pub fn put_amperes(line: &mut [u8; LINE], at: usize, a: Amperes) -> usize
    ensures { after_text (line.old, at) (amperes_text a) ≡ (line.new, result) }
{
    let lower = put_current(line, at, a.lower.0);
    let upper = put_current(line, lower, a.upper.0);
    let converters_lower = put_current(line, upper, a.converters_lower.0);
    let converters_upper = put_current(line, converters_lower, a.converters_upper.0);
    let peak = put_current(line, converters_upper, a.peak.0);
    put_current(line, peak, a.converters_peak.0)
}

// Puts a comma and the verdict's letter.
pub fn put_letter(line: &mut [u8; LINE], at: usize, v: Verdict) -> usize
    ensures { after_text (line.old, at) (letter_text v) ≡ (line.new, result) }
{
    let to = put(line, at, b",");
    put(line, to, &[letter(v)])
}

// The bytes of the line up to a place, the whole line where the place is past its end.
pub fn written(line: &[u8; LINE], end: usize) -> &[u8]
    ensures { result.now ≡ take end line.now }
{
    let whole = &line[..];
    if end <= whole.len() {
        return &whole[0..end];
    }
    whole
}
