// The whole board (document 02, order 7): the six amperes of every bus in a lent table. All rows are read off one board, so that both sweeps
// are made once.
ghost use Rattle.std.specs.Prelude.{◌≡◌, ◌+◌, ◌*◌, ◌≤◌, ◌<◌, length, get_or};
ghost use Rattle.std.specs.Float.{nan};
ghost use Rattle.std.proofs.lemmas.List.Edits.{sets};
ghost use Rattle.tree.specs.Limits.{max_buses};
ghost use Rattle.network.specs.Network.{Network, network};
ghost use Rattle.network.specs.NearPeaks.{NearReport};
ghost use Rattle.network.specs.Report.{report_number, row_in, row_numbers, reported, ReportPromise};
ghost use Rattle.network.specs.Tables.{laid_over, table_after};

use crate::board::board_of;
use crate::query::Amperes;
use crate::rows::row_at;
use crate::study::{Study, bus_total};
use enclosure::amperes::{Peak, Rms};

// The numbers of a row.
pub const ROW: usize = 6;

// The ground on which a report is refused, 0 where it is accepted: by whether the study is closed, how many buses it has, and the room of the
// table.
fn report_number(closed: bool, buses: usize, room: usize) -> u32
    requires { buses ≤ max_buses }
    ensures { (n : Network) → n.closed ≡ closed → length n.buses ≡ buses → result ≡ report_number n room }
{
    let needed = ROW * buses;
    if !closed {
        return 22;
    }
    if room < needed {
        return 33;
    }
    0
}

// Lays the six numbers of a row into the table, from a place on.
fn lay_row(table: &mut [f64], at: usize, a: Amperes)
    requires { at + 6 ≤ length table.old }
    ensures { table.new ≡ sets table.old at (row_numbers a) }
{
    table[at] = a.lower.0;
    table[at + 1] = a.upper.0;
    table[at + 2] = a.converters_lower.0;
    table[at + 3] = a.converters_upper.0;
    table[at + 4] = a.peak.0;
    table[at + 5] = a.converters_peak.0;
}

// Lays the rows of all buses at the start of the table.
fn lay_rows(s: Study, table: &mut [f64])
    requires { 6 * length (network s).buses ≤ length table.old }
    ensures { table.new ≡ laid_over (reported (network s)) table.old }
{
    let total = bus_total(s);
    let buses = s.buses;
    let sources = s.sources;
    let board = board_of(s.tolerance, buses, s.bus_count, sources, s.source_count);
    let mut b: usize = 0;
    while b < total {
        let amperes = row_at(
            s.tolerance,
            buses[b].volts,
            &board.tree.parents,
            &board.tree.above,
            &board.tree.below,
            &board.up.re,
            &board.up.im,
            &board.fall.re,
            &board.fall.im,
            board.gathered,
            b,
        );
        lay_row(table, ROW * b, amperes);
        b += 1;
    }
}

// The six amperes of every bus, in the order of a query, from bus 0 up at the start of the table; numbers beyond the last row are kept.
// Refused: 22 not closed, 33 the table is shorter than six times the buses; then the table is as it was. The clause `promise` is demand 3 for
// each row, for whatever calls made the study; `near` holds the peaks nearer than demand 3 asks.
pub fn report(s: Study, table: &mut [f64]) -> u32
    ensures number { result ≡ report_number (network s) (length table.old) }
    ensures table { table.new ≡ table_after result (reported (network s)) table.old }
    ensures promise { ReportPromise (network s) table.old table.new }
    ensures near { NearReport (network s) table.old table.new }
{
    let number = report_number(s.closed, bus_total(s), table.len());
    if number != 0 {
        return number;
    }
    lay_rows(s, table);
    number
}

// A number of the row of a bus in the table of a report, NaN past the end of the table. The first test keeps 6·b + i from overflowing.
fn number_or_nan(table: &[f64], b: usize, i: usize) -> f64
    requires { i < 6 }
    ensures { result ≡ get_or table.now (6 * b + i) nan }
{
    let none = 0.0 / 0.0;
    if table.len() <= b {
        return none;
    }
    let at = ROW * b + i;
    if table.len() <= at {
        return none;
    }
    table[at]
}

// The row of a bus in the table of a report, each ampere with its unit. Past the end of the table each is NaN.
pub fn row_of(table: &[f64], b: usize) -> Amperes
    ensures row { result ≡ row_in table.now b }
{
    Amperes {
        lower: Rms(number_or_nan(table, b, 0)),
        upper: Rms(number_or_nan(table, b, 1)),
        converters_lower: Rms(number_or_nan(table, b, 2)),
        converters_upper: Rms(number_or_nan(table, b, 3)),
        peak: Peak(number_or_nan(table, b, 4)),
        converters_peak: Peak(number_or_nan(table, b, 5)),
    }
}
