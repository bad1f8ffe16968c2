// A study as text on standard input; on standard output a line for each bus, or the number and the row of a refusal. All that is printed
// is laid into one array and written at once, so that it is one definition of the text.
#![tactic(auto)]

ghost use Rattle.std.specs.Prelude.{◌≡◌, true, ◌++◌, ◌+◌, ◌*◌, ◌≤◌, length, take};
ghost use Rattle.network.specs.Network.{max_buses, network};
ghost use Rattle.reader.specs.File.{read_of};
ghost use Rattle.printing.specs.Line.{room};
ghost use Rattle.noldveig.specs.Rows.{bus_row, refusal_row, board_text, printed};

use input::read_full;
use network::buses_of;
use network::query::{Amperes, Verdict, verdict_at};
use network::report::{ROW, report, row_of};
use network::study::{BUSES, Study, bus_total};
use printing::{LINE, put, put_amperes, put_letter, put_next, put_number, written};
use std::io;

// One byte more than a text may have, so that a longer one is seen to be longer.
const TEXT: usize = 65_537;

// Room for the numbers of a report on all buses.
const TABLE: usize = BUSES * ROW;

// Room for the rows of all buses.
const OUTPUT: usize = BUSES * LINE;

// Puts the row of a refusal at the start of the line, and gives its length. What is required is what the type says: of an array
// behind a reference the prover does not know the length by itself.
fn put_refusal(line: &mut [u8; LINE], number: u32, row: u32) -> usize
    requires { length line.old ≡ room }
    ensures { take result line.new ≡ refusal_row number row }
{
    let word = put(line, 0, b"refused");
    let ground = put_next(line, word, number as u64);
    let place = put_next(line, ground, row as u64);
    put(line, place, b"\r\n")
}

// The same for the row of a bus.
fn put_bus(line: &mut [u8; LINE], bus: u32, amperes: Amperes, verdict: Verdict) -> usize
    requires { length line.old ≡ room }
    ensures { take result line.new ≡ bus_row bus amperes verdict }
{
    let number = put_number(line, 0, bus as u64);
    let figures = put_amperes(line, number, amperes);
    let letter = put_letter(line, figures, verdict);
    put(line, letter, b"\r\n")
}

// Lays bytes into the output from a place on, and gives the place behind them.
fn lay(out: &mut [u8], at: usize, bytes: &[u8]) -> usize
    requires { at + length bytes.now ≤ length out.old }
    ensures place { result ≡ at + length bytes.now }
    ensures text { take result out.new ≡ take at out.old ++ bytes.now }
{
    let mut i: usize = 0;
    while i < bytes.len() {
        out[at + i] = bytes[i];
        i += 1;
    }
    at + i
}

// Lays the row of a refusal at the start of the output, and gives the place behind it.
fn lay_refusal(out: &mut [u8], number: u32, row: u32) -> usize
    requires { room ≤ length out.old }
    ensures place { result ≤ room }
    ensures text { take result out.new ≡ refusal_row number row }
{
    let mut line = [0u8; LINE];
    let end = put_refusal(&mut line, number, row);
    lay(out, 0, written(&line, end))
}

// Lays the row of a bus from a place on, and gives the place behind it.
fn lay_bus(out: &mut [u8], at: usize, bus: u32, amperes: Amperes, verdict: Verdict) -> usize
    requires { at + room ≤ length out.old }
    ensures place { result ≤ at + room }
    ensures text { take result out.new ≡ take at out.old ++ bus_row bus amperes verdict }
{
    let mut line = [0u8; LINE];
    let end = put_bus(&mut line, bus, amperes, verdict);
    lay(out, at, written(&line, end))
}

// Lays the rows of all buses of a closed study, from one report.
fn lay_board(out: &mut [u8], s: Study) -> usize
    requires room_in_bounds { max_buses * room ≤ length out.old }
    requires closed { (network s).closed ≡ true }
    ensures place { result ≤ max_buses * room }
    ensures text { take result out.new ≡ board_text (network s) }
{
    let mut table = [0.0; TABLE];
    report(s, &mut table);
    let total = bus_total(s);
    let buses = buses_of(s);
    let mut at: usize = 0;
    let mut b: usize = 0;
    while b < total {
        let amperes = row_of(&table, b);
        let verdict = verdict_at(buses[b], amperes);
        at = lay_bus(out, at, b as u32, amperes, verdict);
        b += 1;
    }
    at
}

// Lays what the program prints of a text, and gives the place behind it.
fn answer(text: &[u8], out: &mut [u8]) -> usize
    requires { max_buses * room ≤ length out.old }
    ensures place { result ≤ max_buses * room }
    ensures text { take result out.new ≡ printed (read_of text.now) }
{
    let reading = reader::read(text);
    if reading.number == 0 {
        let study = reading.study;
        return lay_board(out, study);
    }
    lay_refusal(out, reading.number, reading.row)
}

fn main(rt: HostRuntime) -> io::Result<()> {
    let mut input = rt.stdin();
    let mut text = [0u8; TEXT];
    let mut out = [0u8; OUTPUT];
    let n = read_full(&mut input, &mut text);
    let end = answer(&text[..n], &mut out);
    rt.write_all(&out[..end])
}
