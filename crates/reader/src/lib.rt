// From the text of a file to a study: rows, fields, numbers, records.
#![tactic(auto)]

ghost use Rattle.std.specs.Prelude.{◌≡◌, ◌+◌, ◌≤◌, length, drop};
ghost use Rattle.network.specs.Network.{network};
ghost use Rattle.network.specs.Grounds.{empty_network, run};
ghost use Rattle.reader.specs.File.{max_bytes, rows, outcome_of, refused_at, close_after, read_from, read_of, calls_read};
ghost use Rattle.reader.specs.Editions.{first_edition, OldEdition};

mod fields;
mod parts;
mod rows;

pub use fields::numbers_of;
use network::additions::add_all;
use network::calls::{close, start};
use network::study::{Bus, Source, Study};
use parts::part_of;
pub use rows::{bus_count_ok, bus_of, source_count_ok, source_of};
use rows::{row_end, row_of};

// The most bytes that a text may have.
const BYTES: usize = 65_536;

// The fields of a bus row and of a source row, those of a source row without a transformer's, and the most numbers that are taken of a
// row. That is more than any row has: the console's lines take theirs the same way, and have more.
pub const BUS_FIELDS: usize = 10;

pub const SOURCE_FIELDS: usize = 12;

const SHORT_SOURCE_FIELDS: usize = 7;

pub const MOST_FIELDS: usize = 16;

// What the bytes of a field say.
#[derive(Clone, Copy)]
pub enum Number {
    Value(u32),
    Broken,
}

// The numbers of a row, in order: those that are counted, where the row is in order, and zeros behind them.
#[derive(Clone, Copy)]
pub struct Numbers {
    pub ok: bool,
    pub count: usize,
    pub values: [u32; MOST_FIELDS],
}

// What a row says: the tolerance of a start, a record, or nothing that the file's form allows.
#[derive(Clone, Copy)]
pub enum Row {
    Start(u32),
    WithBus(Bus),
    WithSource(Source),
    Malformed,
}

// What reading a text gives: the number of the ground on which it was refused and the row, both 0 where it was accepted, and the
// study.
#[derive(Clone, Copy)]
pub struct Reading {
    pub number: u32,
    pub row: u32,
    pub study: Study,
}

// A refused text leaves an empty open study of tolerance 6.
fn refused(number: u32, row: u32) -> Reading
    ensures { outcome_of result ≡ refused_at number row }
{
    let left = start(6);
    let study = left.study;
    Reading { number, row, study }
}

// The study closed after its last row.
fn closed_after(row: u32, s: Study) -> Reading
    ensures { outcome_of result ≡ close_after row (network s) }
{
    let last = close(s);
    if last.number != 0 {
        return refused(last.number, row);
    }
    let study = last.study;
    Reading {
        number: 0,
        row: 0,
        study,
    }
}

// The rows from a place on, behind the first row, which began the study: added part by part, up to the first that is refused.
fn read_records(text: &[u8], from: usize, begun: Study) -> Reading
    requires text_len_bound { length text.now ≤ max_bytes }
    requires place { (1 ≤ from) × (from ≤ length text.now + 2) }
    ensures { outcome_of result ≡ read_from 1 (network begun) (rows (drop from text.now)) }
{
    let mut study = begun;
    let mut row: u32 = 1;
    let mut at = from;
    while at < text.len() {
        let part = part_of(text, at);
        let additions = part.additions;
        let added = add_all(study, additions);
        row += added.accepted as u32;
        if added.number != 0 {
            return refused(added.number, row + 1);
        }
        if part.malformed {
            return refused(16, row + 1);
        }
        study = added.study;
        at = part.next;
    }
    closed_after(row, study)
}

// The rows of a text taken in order, up to the first that is refused.
fn read_rows(text: &[u8]) -> Reading
    requires { (1 ≤ length text.now) × (length text.now ≤ max_bytes) }
    ensures { outcome_of result ≡ read_from 0 empty_network (rows text.now) }
{
    let end = row_end(text, 0);
    let said = row_of(true, &text[..end]);
    let Row::Start(tolerance) = said else {
        return refused(16, 1);
    };
    let first = start(tolerance);
    if first.number != 0 {
        return refused(first.number, 1);
    }
    let begun = first.study;
    read_records(text, end + 2, begun)
}

// The study that a text gives, closed, or the first ground on which it is refused, with the row. By the clause `calls` it is a study that
// calls made, so that whatever a query promises of such a study holds of what was read; `edition` says what an edition with document 01's
// room for records makes of the text.
pub fn read(text: &[u8]) -> Reading
    ensures number { result.number ≡ (read_of text.now).number }
    ensures row { result.row ≡ (read_of text.now).row }
    ensures network { network result.study ≡ (read_of text.now).network }
    ensures calls { network result.study ≡ run (calls_read text.now) }
    ensures edition { OldEdition first_edition text.now (outcome_of result) }
{
    let n = text.len();
    if (1 <= n) & (n <= BYTES) {
        return read_rows(text);
    }
    refused(16, 1)
}
