// What is timed. By C: the operations of enclosing arithmetic (bench/enclosure.c), where a point goes in and comes out by its parts, reading
// and querying a study (bench/queries.c), all its buses together (bench/boards.c), breaking currents (bench/breakings.c), writing
// it (bench/writes.c), and changing its sources (bench/changes.c, module changes). By tests/check-report: a study that is closed again and
// again, and then reported or queried (module closings).
#![tactic(auto)]

ghost use Rattle.std.specs.Prelude.{◌≡◌, ◌<◌, ◌+◌};
ghost use Rattle.enclosure.specs.Doubles.{added, inverted, scaled, root_below};
ghost use Rattle.network.specs.Network.{network};
ghost use Rattle.reader.specs.File.{read_of};
ghost use Rattle.bench.specs.Breakings.{broken_times};
ghost use Rattle.bench.specs.Queries.{sum_of, sums_of};
ghost use Rattle.bench.specs.Reports.{numbers_added, reported_times};
ghost use Rattle.bench.specs.Writes.{written_times};

pub mod changes;
pub mod closings;

use breaking::breaking;
use enclosure::Complex;
use network::query::{Amperes, query};
use network::report::report;
use network::study::Study;
use writer::write;

pub fn enclosure_add(a: f64, b: f64, c: f64, d: f64, re: &mut f64, im: &mut f64)
    ensures { record { re = re.new; im = im.new } ≡ added (record { re = a; im = b }) (record { re = c; im = d }) }
{
    let r = enclosure::add(Complex { re: a, im: b }, Complex { re: c, im: d });
    *re = r.re;
    *im = r.im;
}

pub fn enclosure_inverse(a: f64, b: f64, re: &mut f64, im: &mut f64)
    ensures { record { re = re.new; im = im.new } ≡ inverted (record { re = a; im = b }) }
{
    let r = enclosure::inverse(Complex { re: a, im: b });
    *re = r.re;
    *im = r.im;
}

pub fn enclosure_scale(a: f64, b: f64, p: u32, q: u32, re: &mut f64, im: &mut f64)
    ensures { record { re = re.new; im = im.new } ≡ scaled p q (record { re = a; im = b }) }
{
    let r = enclosure::scale(Complex { re: a, im: b }, p, q);
    *re = r.re;
    *im = r.im;
}

pub fn enclosure_root_below(m: f64) -> u64
    ensures { result ≡ root_below m }
{
    enclosure::roots::root_below(m)
}

// The six figures of an answer, added up: a figure that is not used would not be calculated.
pub(crate) fn sum_of(a: Amperes) -> f64
    ensures { result ≡ sum_of a }
{
    a.lower.0
        + a.upper.0
        + a.peak.0
        + a.converters_lower.0
        + a.converters_upper.0
        + a.converters_peak.0
}

// The six figures of k queries, going round over the buses 0 to n - 1, added up.
fn sums(s: Study, n: u32, k: u32) -> f64
    requires { 0 < n }
    ensures { result ≡ sums_of (network s) n k }
{
    let mut total = 0.0;
    let mut i: u32 = 0;
    while i < k {
        let found = query(s, i % n);
        total = total + sum_of(found.amperes);
        i += 1;
    }
    total
}

// A text read, and k queries of its study, going round over the buses up to `last`.
pub fn network_sums(text: &[u8], last: u8, k: u32) -> f64
    ensures { result ≡ sums_of (read_of text.now).network (last + 1) k }
{
    let reading = reader::read(text);
    let n = last as u32 + 1;
    sums(reading.study, n, k)
}

// The numbers of a table, added to a total.
pub(crate) fn with_numbers(start: f64, table: &[f64]) -> f64
    ensures { result ≡ numbers_added start table.now }
{
    let mut total = start;
    let mut i: usize = 0;
    while i < table.len() {
        total = total + table[i];
        i += 1;
    }
    total
}

// k reports of a study, all into one table: the numbers of the table after each, added up.
fn reports(s: Study, table: &mut [f64], k: u32) -> f64
    ensures { reported_times (network s) table.old k ≡ (table.new, result) }
{
    let mut total = 0.0;
    let mut i: u32 = 0;
    while i < k {
        report(s, table);
        total = with_numbers(total, table);
        i += 1;
    }
    total
}

// A text read, and k reports of its study.
pub fn network_reports(text: &[u8], table: &mut [f64], k: u32) -> f64
    ensures { reported_times (read_of text.now).network table.old k ≡ (table.new, result) }
{
    let reading = reader::read(text);
    reports(reading.study, table, k)
}

// A study written k times into the buffer; the length that the last writing reported.
fn writes(s: Study, buffer: &mut [u8], k: u32) -> usize
    ensures { written_times (network s) buffer.old k ≡ (buffer.new, result) }
{
    let mut length: usize = 0;
    let mut i: u32 = 0;
    while i < k {
        let written = write(s, buffer);
        length = written.length;
        i += 1;
    }
    length
}

// A text read, and its study written k times.
pub fn study_writes(text: &[u8], buffer: &mut [u8], k: u32) -> usize
    ensures { written_times (read_of text.now).network buffer.old k ≡ (buffer.new, result) }
{
    let reading = reader::read(text);
    writes(reading.study, buffer, k)
}

// k breaking calls, going round over the buses 0 to n - 1, all with one table: their figures, added up.
fn breakings(s: Study, n: u32, delay: u32, table: &mut [f64], k: u32) -> f64
    requires { 0 < n }
    ensures { broken_times (network s) n delay table.old k ≡ (table.new, result) }
{
    let mut total = 0.0;
    let mut i: u32 = 0;
    while i < k {
        let broken = breaking(s, i % n, delay, table);
        total = total + broken.figure.0;
        i += 1;
    }
    total
}

// A text read, and k breaking calls of its study, going round over the buses up to `last`.
pub fn network_breakings(text: &[u8], last: u8, delay: u32, table: &mut [f64], k: u32) -> f64
    ensures { broken_times (read_of text.now).network (last + 1) delay table.old k ≡ (table.new, result) }
{
    let reading = reader::read(text);
    let n = last as u32 + 1;
    breakings(reading.study, n, delay, table, k)
}
