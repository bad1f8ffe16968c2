// Breaking current Ib of a bus (document 02, order 3): what a breaker meets that opens after a minimum time delay, and each generator's
// share in it.
#![tactic(auto)]

ghost use Rattle.std.specs.Prelude.{◌≡◌, ◌≤◌, length};
ghost use Rattle.elements.specs.BreakingFactor.{delay_ok};
ghost use Rattle.tree.specs.Limits.{max_sources};
ghost use Rattle.network.specs.Network.{network};
ghost use Rattle.network.specs.Tables.{table_after};
ghost use Rattle.breaking.specs.Breaking.{breaking_number, figure_after};
ghost use Rattle.breaking.specs.Doubles.{number_after, part_at, table_of, figure_at};
ghost use Rattle.breaking.specs.Promise.{BreakingPromise};

mod parts;
mod table;

use enclosure::amperes::{Rms, add_rms, rms_of};
use network::query::query;
use network::study::{Study, source_total};
use parts::amperes_up;
use table::lay_shares;

// What the call gives: the number of its ground, and the breaking figure.
#[derive(Clone, Copy)]
pub struct BreakingAnswer {
    pub number: u32,
    pub figure: Rms,
}

// Whether it is one of the four minimum delays, in milliseconds.
fn delay_ok(delay: u32) -> bool
    ensures { result ≡ delay_ok delay }
{
    (delay == 20) | (delay == 50) | (delay == 100) | (delay == 250)
}

// The ground on which the call is refused, 0 where it is accepted: that of a query, then the delay, then the room of the table.
fn number_after(found: u32, delay: u32, sources: usize, room: usize) -> u32
    requires { sources ≤ max_sources }
    ensures { result ≡ number_after found delay sources room }
{
    if found != 0 {
        return found;
    }
    if delay_ok(delay) {
        if room < 2 * sources { 30 } else { 0 }
    } else {
        31
    }
}

// The breaking figure of a bus, and in the table two numbers a source in source order: whole bounds of the share of a generator or a unit, 0
// and 0 of any other source. Numbers beyond these are kept. Refused: 22 not closed, 15 no such bus, 31 no such delay, 30 the table is too
// short; then the figure is 0 and the table as it was. The clause `promise` is order 3 whole, for whatever calls made the study.
pub fn breaking(s: Study, bus: u32, delay: u32, table: &mut [f64]) -> BreakingAnswer
    ensures number { result.number ≡ breaking_number (network s) bus delay (length table.old) }
    ensures figure { result.figure.0 ≡ figure_after result.number (figure_at (network s) bus delay) }
    ensures table { table.new ≡ table_after result.number (table_of (part_at (network s) bus delay) (network s).sources) table.old }
    ensures promise { BreakingPromise (network s) bus delay table.old table.new result.figure.0 }
{
    let found = query(s, bus);
    let number = number_after(found.number, delay, source_total(s), table.len());
    if number != 0 {
        return BreakingAnswer {
            number,
            figure: rms_of(0),
        };
    }
    let steps = lay_shares(s, bus as usize, delay, table);
    let machines = rms_of(amperes_up(steps));
    let figure = add_rms(machines, found.amperes.converters_upper);
    BreakingAnswer { number, figure }
}
