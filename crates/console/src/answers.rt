// The lines that answer a call. Each is put at the start of a line, and then written. That a line has its bytes is required because
// the prover does not know the length of an array behind a reference by itself; a reason is short, so that there is room for it.
ghost use Rattle.std.specs.Prelude.{◌≡◌, ◌≤◌, length, take};
ghost use Rattle.printing.specs.Line.{room};
ghost use Rattle.console.specs.Answers.{error_line, number_line, reading_line, found_line};
ghost use Rattle.console.specs.Effects.{reason_text};

use crate::hex::{TEXT, text_of};
use crate::parts::print_written;
use crate::tables::{TABLE, first_numbers, print_broken, print_report};
use crate::turns::{Reason, Reply};
use network::query::Found;
use printing::{
    LINE, amount, number_of, put, put_amperes, put_letter, put_next, put_number, written,
};
use std::io;

fn put_error(line: &mut [u8; LINE], reason: &[u8]) -> usize
    requires line_len { length line.old ≡ room }
    requires reason_len_bound { length reason.now ≤ 200 }
    ensures { take result line.new ≡ error_line reason.now }
{
    let word = put(line, 0, b"error,");
    let at = put(line, word, reason);
    put(line, at, b"\n")
}

fn put_reason(line: &mut [u8; LINE], reason: Reason) -> usize
    requires { length line.old ≡ room }
    ensures { take result line.new ≡ error_line (reason_text reason) }
{
    match reason {
        Reason::Fields => put_error(line, b"fields"),
        Reason::Number => put_error(line, b"number"),
        Reason::Hex => put_error(line, b"hex"),
        Reason::Room => put_error(line, b"room"),
        Reason::Unknown => put_error(line, b"unknown call"),
        Reason::Long => put_error(line, b"line too long"),
    }
}

fn put_ground(line: &mut [u8; LINE], number: u32) -> usize
    requires { length line.old ≡ room }
    ensures { take result line.new ≡ number_line number }
{
    let at = put_number(line, 0, number as u64);
    put(line, at, b"\n")
}

fn put_reading(line: &mut [u8; LINE], number: u32, row: u32) -> usize
    requires { length line.old ≡ room }
    ensures { take result line.new ≡ reading_line number row }
{
    let ground = put_number(line, 0, number as u64);
    let at = put_next(line, ground, row as u64);
    put(line, at, b"\n")
}

fn put_found(line: &mut [u8; LINE], found: Found) -> usize
    requires { length line.old ≡ room }
    ensures { take result line.new ≡ found_line found }
{
    let verdict = found.verdict;
    let ground = put_number(line, 0, found.number as u64);
    let amperes = put_amperes(line, ground, found.amperes);
    let letter = put_letter(line, amperes, verdict);
    let at = put_next(line, letter, number_of(amount(verdict)));
    put(line, at, b"\n")
}

fn print_error(rt: &impl Print, reason: Reason) -> io::Result<()> {
    let mut line = [0u8; LINE];
    let end = put_reason(&mut line, reason);
    rt.write_all(written(&line, end))
}

fn print_number(rt: &impl Print, number: u32) -> io::Result<()> {
    let mut line = [0u8; LINE];
    let end = put_ground(&mut line, number);
    rt.write_all(written(&line, end))
}

fn print_reading(rt: &impl Print, number: u32, row: u32) -> io::Result<()> {
    let mut line = [0u8; LINE];
    let end = put_reading(&mut line, number, row);
    rt.write_all(written(&line, end))
}

fn print_found(rt: &impl Print, found: Found) -> io::Result<()> {
    let mut line = [0u8; LINE];
    let end = put_found(&mut line, found);
    rt.write_all(written(&line, end))
}

// Writes the reply; of a writing it ends with the bytes that were lent, of a breaking current and of a report with the numbers that were
// lent.
pub(crate) fn print_reply(
    rt: &impl Print,
    reply: Reply,
    text: &[u8; TEXT],
    table: &[f64; TABLE],
) -> io::Result<()> {
    match reply {
        Reply::Ground(number) => print_number(rt, number),
        Reply::Reading(number, row) => print_reading(rt, number, row),
        Reply::Found(found) => print_found(rt, found),
        Reply::Written(number, size, count) => print_written(
            rt,
            number,
            size,
            text_of(text, count),
        ),
        Reply::Breaking(number, figure, count) => {
            print_broken(rt, number, figure, first_numbers(table, count))
        }
        Reply::Report(number, count) => print_report(rt, number, first_numbers(table, count)),
        Reply::Error(reason) => print_error(rt, reason),
    }
}
