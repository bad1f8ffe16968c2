// The fields of a row between its commas, each a part of the caller's text, and the numbers that they say.
ghost use Rattle.std.specs.Prelude.{◌≡◌, ◌+◌, ◌≤◌, length, drop};
ghost use Rattle.reader.specs.File.{fields, length_ok, value_of, number_of};
ghost use Rattle.reader.specs.Stretches.{at_comma, before, stretch};
ghost use Rattle.reader.specs.Collected.{collected};

use crate::{MOST_FIELDS, Number, Numbers};

// Where the field that begins at a place ends: at its comma, or with the row.
fn field_end(row: &[u8], at: usize) -> usize
    requires { at ≤ length row.now }
    ensures { (result ≡ at + before at_comma (drop at row.now)) × (result ≤ length row.now) }
{
    let mut i = at;
    while i < row.len() {
        if row[i] == b',' {
            return i;
        }
        i += 1;
    }
    i
}

// The field that begins at a place: the row's own bytes up to the comma.
pub(crate) fn field(row: &[u8], at: usize) -> &[u8]
    requires { at ≤ length row.now }
    ensures { result.now ≡ stretch at_comma (drop at row.now) }
{
    let end = field_end(row, at);
    &row[at..end]
}

// One to ten bytes, the first of several not 0.
fn length_ok(field: &[u8]) -> bool
    ensures { result ≡ length_ok field.now }
{
    let n = field.len();
    if n == 0 {
        return false;
    }
    if n == 1 {
        return true;
    }
    if 10 < n {
        return false;
    }
    field[0] != b'0'
}

fn wide(x: u8) -> u64
    ensures { result ≡ x }
{
    x as u64
}

// The number that digits make, where it is below 2^32.
fn value(field: &[u8]) -> Number
    ensures { result ≡ value_of field.now }
{
    let mut n: u64 = 0;
    let mut i: usize = 0;
    while i < field.len() {
        let d = field[i];
        if d < b'0' {
            return Number::Broken;
        }
        if b'9' < d {
            return Number::Broken;
        }
        n = 10 * n + wide(d - b'0');
        if 4_294_967_296 <= n {
            return Number::Broken;
        }
        i += 1;
    }
    Number::Value(n as u32)
}

// The number of a field.
pub(crate) fn number_of(field: &[u8]) -> Number
    ensures { result ≡ number_of field.now }
{
    if length_ok(field) {
        return value(field);
    }
    Number::Broken
}

// The numbers of a row's fields, in order. Not ok where a field is no number or where there are more than any row has.
pub fn numbers_of(row: &[u8]) -> Numbers
    ensures { result ≡ collected (fields row.now) }
{
    let mut values = [0u32; MOST_FIELDS];
    let mut count: usize = 0;
    let mut at: usize = 0;
    while at <= row.len() {
        let part = field(row, at);
        let next = at + part.len() + 1;
        let number = number_of(part);
        let Number::Value(n) = number else {
            return Numbers {
                ok: false,
                count,
                values,
            };
        };
        if MOST_FIELDS <= count {
            return Numbers {
                ok: false,
                count,
                values,
            };
        }
        values[count] = n;
        count += 1;
        at = next;
    }
    Numbers {
        ok: true,
        count,
        values,
    }
}
