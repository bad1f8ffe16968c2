// The calls. Each takes the study and what stands after its word, and makes a turn. Where a text or a table is lent, its length is a
// hypothesis: of an array behind a reference the prover does not know it by itself.
ghost use Rattle.std.specs.Prelude.{◌≡◌, ℕ, List, length, replicate, Float};
ghost use Rattle.network.specs.Network.{network};
ghost use Rattle.writer.specs.Writing.{write_number, write_length, after_write};
ghost use Rattle.network.specs.Report.{report_number, reported};
ghost use Rattle.network.specs.Tables.{table_after};
ghost use Rattle.breaking.specs.Breaking.{breaking_number, figure_after};
ghost use Rattle.breaking.specs.Doubles.{part_at, table_of, figure_at};
ghost use Rattle.console.specs.Answers.{filler, table_filler};
ghost use Rattle.console.specs.Effects.{Lent, effect_of, exactly, counted, reason_of, start_effect, bus_effect, source_effect, close_effect, withdraw_effect, replace_count_ok, record_behind, replace_effect, reopen_effect, query_effect, read_effect, write_effect, breaking_effect, report_effect, call_effect};

use crate::hex::{Decoded, TEXT, decode, text_of};
use crate::tables::{REPORT_TABLE, TABLE, fill_table};
use crate::turns::{Reason, Reply, Turn, answered, failed};
use crate::words::{after, begins, is};
use breaking::BreakingAnswer;
use network::report::report;
use network::study::{Source, Study};
use reader::{MOST_FIELDS, Numbers, bus_count_ok, bus_of, numbers_of, source_count_ok, source_of};
use writer::Written;

// Whether these are so many numbers.
fn takes(n: Numbers, wanted: usize) -> bool
    ensures { result ≡ counted n (exactly wanted) }
{
    n.ok & (n.count == wanted)
}

// What is wrong where they are not. A field more than any row has is one too many, whatever it says.
fn reason_of(n: Numbers) -> Reason
    ensures { result ≡ reason_of n }
{
    if n.ok | (n.count == MOST_FIELDS) {
        return Reason::Fields;
    }
    Reason::Number
}

fn make_start(s: Study, rest: &[u8]) -> Turn
    ensures { (lent : Lent) → effect_of lent result ≡ start_effect (network s) rest.now }
{
    let n = numbers_of(rest);
    let v = n.values;
    if takes(n, 1) {
        return answered(network::calls::start(v[0]));
    }
    failed(s, reason_of(n))
}

fn make_bus(s: Study, rest: &[u8]) -> Turn
    ensures { (lent : Lent) → effect_of lent result ≡ bus_effect (network s) rest.now }
{
    let n = numbers_of(rest);
    let v = n.values;
    if n.ok & bus_count_ok(n.count) {
        return answered(network::calls::add_bus(s, bus_of(v)));
    }
    failed(s, reason_of(n))
}

fn make_source(s: Study, rest: &[u8]) -> Turn
    ensures { (lent : Lent) → effect_of lent result ≡ source_effect (network s) rest.now }
{
    let n = numbers_of(rest);
    let v = n.values;
    if n.ok & source_count_ok(n.count) {
        return answered(network::calls::add_source(s, source_of(v)));
    }
    failed(s, reason_of(n))
}

fn make_close(s: Study) -> Turn
    ensures { (lent : Lent) → effect_of lent result ≡ close_effect (network s) }
{
    answered(network::calls::close(s))
}

fn make_withdraw(s: Study, rest: &[u8]) -> Turn
    ensures { (lent : Lent) → effect_of lent result ≡ withdraw_effect (network s) rest.now }
{
    let n = numbers_of(rest);
    let v = n.values;
    if takes(n, 1) {
        return answered(network::calls::withdraw(s, v[0]));
    }
    failed(s, reason_of(n))
}

// Whether so many numbers are a place and a source record, of seven or twelve.
fn replace_count_ok(count: usize) -> bool
    ensures { result ≡ replace_count_ok count }
{
    (count == 8) | (count == 13)
}

// The source record behind a place.
fn source_behind(v: [u32; MOST_FIELDS]) -> Source
    ensures { result ≡ record_behind v }
{
    Source {
        kind: v[1],
        bus: v[2],
        f1: v[3],
        f2: v[4],
        f3: v[5],
        f4: v[6],
        f5: v[7],
        low: v[8],
        high: v[9],
        transformer_kva: v[10],
        uk: v[11],
        ur: v[12],
    }
}

fn make_replace(s: Study, rest: &[u8]) -> Turn
    ensures { (lent : Lent) → effect_of lent result ≡ replace_effect (network s) rest.now }
{
    let n = numbers_of(rest);
    let v = n.values;
    if n.ok & replace_count_ok(n.count) {
        return answered(network::calls::replace(s, v[0], source_behind(v)));
    }
    failed(s, reason_of(n))
}

fn make_reopen(s: Study) -> Turn
    ensures { (lent : Lent) → effect_of lent result ≡ reopen_effect (network s) }
{
    answered(network::calls::reopen(s))
}

fn make_query(s: Study, rest: &[u8]) -> Turn
    ensures study { result.study ≡ s }
    ensures effect { (lent : Lent) → effect_of lent result ≡ query_effect (network s) rest.now }
{
    let n = numbers_of(rest);
    let v = n.values;
    if takes(n, 1) {
        let found = network::query::query(s, v[0]);
        return Turn {
            reply: Reply::Found(found),
            study: s,
        };
    }
    failed(s, reason_of(n))
}

fn make_read(s: Study, rest: &[u8], text: &mut [u8; TEXT]) -> Turn
    ensures { (table : List Float) → length text.old ≡ 70000 → effect_of (text.new, table) result ≡ read_effect (network s) rest.now }
{
    let decoded = decode(rest, text);
    let Decoded::Bytes(n) = decoded else {
        return failed(s, Reason::Hex);
    };
    let reading = reader::read(text_of(text, n));
    let study = reading.study;
    Turn {
        reply: Reply::Reading(reading.number, reading.row),
        study,
    }
}

// Gives each lent byte one value, so that the bytes that the call keeps are seen to be kept.
fn fill(lent: &mut [u8])
    ensures { lent.new ≡ replicate (length lent.old) filler }
{
    let mut i: usize = 0;
    while i < lent.len() {
        lent[i] = 0x55;
        i += 1;
    }
}

fn write_into(s: Study, lent: &mut [u8]) -> Written
    ensures number { result.number ≡ write_number (network s) (length lent.old) }
    ensures length { result.length ≡ write_length (network s) (length lent.old) }
    ensures lent { lent.new ≡ after_write (network s) (replicate (length lent.old) filler) }
{
    fill(lent);
    writer::write(s, lent)
}

// All lent bytes are answered, so that those that the call keeps are seen too.
fn make_write(s: Study, rest: &[u8], text: &mut [u8]) -> Turn
    ensures study { result.study ≡ s }
    ensures effect { (table : List Float) → length text.old ≡ 70000 → effect_of (text.new, table) result ≡ write_effect (network s) rest.now }
{
    let n = numbers_of(rest);
    let v = n.values;
    if takes(n, 1) {
        let count = v[0] as usize;
        if count <= text.len() {
            let done = write_into(s, &mut text[0..count]);
            return Turn {
                reply: Reply::Written(done.number, done.length, count),
                study: s,
            };
        }
        return failed(s, Reason::Room);
    }
    failed(s, reason_of(n))
}

fn break_into(s: Study, bus: u32, delay: u32, table: &mut [f64]) -> BreakingAnswer
    ensures number { result.number ≡ breaking_number (network s) bus delay (length table.old) }
    ensures figure { result.figure.0 ≡ figure_after result.number (figure_at (network s) bus delay) }
    ensures table { table.new ≡ table_after result.number (table_of (part_at (network s) bus delay) (network s).sources) (replicate (length table.old) table_filler) }
{
    fill_table(table);
    breaking::breaking(s, bus, delay, table)
}

// All lent numbers are answered, so that those that the call keeps are seen too.
fn make_breaking(s: Study, rest: &[u8], table: &mut [f64]) -> Turn
    ensures study { result.study ≡ s }
    ensures effect { (text : List ℕ) → length table.old ≡ 1100 → effect_of (text, table.new) result ≡ breaking_effect (network s) rest.now }
{
    let n = numbers_of(rest);
    let v = n.values;
    if takes(n, 3) {
        let count = v[2] as usize;
        if count <= table.len() {
            let done = break_into(s, v[0], v[1], &mut table[0..count]);
            return Turn {
                reply: Reply::Breaking(done.number, done.figure.0, count),
                study: s,
            };
        }
        return failed(s, Reason::Room);
    }
    failed(s, reason_of(n))
}

fn report_into(s: Study, table: &mut [f64]) -> u32
    ensures number { result ≡ report_number (network s) (length table.old) }
    ensures table { table.new ≡ table_after result (reported (network s)) (replicate (length table.old) table_filler) }
{
    fill_table(table);
    report(s, table)
}

// All lent numbers are answered here too. README has 1,000 of them at most; that the table has them is for the slice.
fn make_report(s: Study, rest: &[u8], table: &mut [f64]) -> Turn
    ensures study { result.study ≡ s }
    ensures effect { (text : List ℕ) → length table.old ≡ 1100 → effect_of (text, table.new) result ≡ report_effect (network s) rest.now }
{
    let n = numbers_of(rest);
    let v = n.values;
    if takes(n, 1) {
        let count = v[0] as usize;
        if (count <= REPORT_TABLE) & (count <= table.len()) {
            let number = report_into(s, &mut table[0..count]);
            return Turn {
                reply: Reply::Report(number, count),
                study: s,
            };
        }
        return failed(s, Reason::Room);
    }
    failed(s, reason_of(n))
}

// The turn of the call that a line names.
pub(crate) fn make_call(
    s: Study,
    line: &[u8],
    text: &mut [u8; TEXT],
    table: &mut [f64; TABLE],
) -> Turn
    ensures { length text.old ≡ 70000 → length table.old ≡ 1100 → effect_of (text.new, table.new) result ≡ call_effect (network s) line.now }
{
    if begins(line, b"start,") {
        return make_start(s, after(line, 6));
    }
    if begins(line, b"bus,") {
        return make_bus(s, after(line, 4));
    }
    if begins(line, b"source,") {
        return make_source(s, after(line, 7));
    }
    if is(line, b"close") {
        return make_close(s);
    }
    if begins(line, b"query,") {
        return make_query(s, after(line, 6));
    }
    if begins(line, b"read,") {
        return make_read(s, after(line, 5), text);
    }
    if begins(line, b"write,") {
        return make_write(s, after(line, 6), text);
    }
    if begins(line, b"breaking,") {
        return make_breaking(s, after(line, 9), table);
    }
    if begins(line, b"report,") {
        return make_report(s, after(line, 7), table);
    }
    if begins(line, b"withdraw,") {
        return make_withdraw(s, after(line, 9));
    }
    if begins(line, b"replace,") {
        return make_replace(s, after(line, 8));
    }
    if is(line, b"reopen") {
        return make_reopen(s);
    }
    failed(s, Reason::Unknown)
}
