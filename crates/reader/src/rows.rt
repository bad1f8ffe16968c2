// The rows of a text between their CRLF, each a part of the caller's text, and the records that they say.
ghost use Rattle.std.specs.Prelude.{◌≡◌, ◌+◌, ◌≤◌, ◌<◌, length, take, drop};
ghost use Rattle.reader.specs.File.{most_fields, bus_count_ok, source_count_ok, bus_of, source_of, record_of, row_of};
ghost use Rattle.reader.specs.Collected.{Filled};
ghost use Rattle.reader.specs.Stretches.{at_crlf, before};

use crate::fields::numbers_of;
use crate::{BUS_FIELDS, MOST_FIELDS, Numbers, Row, SHORT_SOURCE_FIELDS, SOURCE_FIELDS};
use network::study::{Bus, Source};

// Whether CRLF stands at a place.
fn ends_row(text: &[u8], i: usize) -> bool
    requires { i < length text.now }
    ensures { result ≡ at_crlf (drop i text.now) }
{
    let next = i + 1;
    if text.len() <= next {
        return false;
    }
    (text[i] == b'\r') & (text[next] == b'\n')
}

// Where the row that begins at a place ends: at its CRLF, or with the text.
pub(crate) fn row_end(text: &[u8], at: usize) -> usize
    requires { at ≤ length text.now }
    ensures { (result ≡ at + before at_crlf (drop at text.now)) × (result ≤ length text.now) }
{
    let mut i = at;
    while i < text.len() {
        if ends_row(text, i) {
            return i;
        }
        i += 1;
    }
    i
}

// Whether so many numbers make a bus row.
pub fn bus_count_ok(count: usize) -> bool
    ensures { result ≡ bus_count_ok count }
{
    count == BUS_FIELDS
}

// Whether so many numbers make a source row.
pub fn source_count_ok(count: usize) -> bool
    ensures { result ≡ source_count_ok count }
{
    (count == SHORT_SOURCE_FIELDS) | (count == SOURCE_FIELDS)
}

// The numbers of a row as a bus record, in its fields' order.
pub fn bus_of(v: [u32; MOST_FIELDS]) -> Bus
    ensures { result ≡ bus_of v }
{
    Bus {
        parent: v[0],
        volts: v[1],
        kind: v[2],
        f1: v[3],
        f2: v[4],
        f3: v[5],
        f4: v[6],
        f5: v[7],
        rating: v[8],
        peak_rating: v[9],
    }
}

// The numbers of a row as a source record, in its fields' order.
pub fn source_of(v: [u32; MOST_FIELDS]) -> Source
    ensures { result ≡ source_of v }
{
    Source {
        kind: v[0],
        bus: v[1],
        f1: v[2],
        f2: v[3],
        f3: v[4],
        f4: v[5],
        f5: v[6],
        low: v[7],
        high: v[8],
        transformer_kva: v[9],
        uk: v[10],
        ur: v[11],
    }
}

// The record that a letter and the numbers after it give: S and one number in row 1; in any other B or P with the numbers of
// their records.
fn record_of(first: bool, letter: u8, n: Numbers) -> Row
    requires count_le_most_fields { n.count ≤ most_fields }
    requires filled { Filled n.count n.values }
    ensures { result ≡ record_of first letter (take n.count n.values) }
{
    let v = n.values;
    if first {
        if (letter == b'S') & (n.count == 1) {
            return Row::Start(v[0]);
        }
        return Row::Malformed;
    }
    if (letter == b'B') & bus_count_ok(n.count) {
        let b = bus_of(v);
        return Row::WithBus(b);
    }
    if (letter == b'P') & source_count_ok(n.count) {
        let p = source_of(v);
        return Row::WithSource(p);
    }
    Row::Malformed
}

// What a row says: a letter, a comma and numbers.
pub(crate) fn row_of(first: bool, row: &[u8]) -> Row
    ensures { result ≡ row_of first row.now }
{
    if row.len() < 2 {
        return Row::Malformed;
    }
    if row[1] != b',' {
        return Row::Malformed;
    }
    let rest = &row[2..];
    let n = numbers_of(rest);
    if n.ok {
        return record_of(first, row[0], n);
    }
    Row::Malformed
}
