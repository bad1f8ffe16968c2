// The table of shares, laid source by source, and the sum of their steps.
ghost use Rattle.std.specs.Prelude.{◌≡◌, ◌*◌, ◌≤◌, length};
ghost use Rattle.network.specs.Network.{network};
ghost use Rattle.network.specs.Tables.{laid_over};
ghost use Rattle.breaking.specs.Doubles.{part_of, part_at, table_of, steps_from};

use crate::parts::{Part, drive, part_by, strength};
use network::study::{BUSES, Source, Study, source_total};
use network::ways::ways_from;
use network::{machine_admittance, sources_of, tolerance_of};
use sweep::columns::number_at;
use sweep::ways::factor_at;

// What a source adds, by the ways from the queried bus.
fn part_of<'a>(
    tolerance: u32,
    delay: u32,
    drive: f64,
    volts: &'a [u32; BUSES],
    ratios: &'a [f64; BUSES],
    dividers: &'a [f64; BUSES],
    p: Source,
) -> Part
    ensures { result ≡ part_of tolerance delay drive volts.now ratios.now dividers.now p }
{
    let b = p.bus as usize;
    let y = machine_admittance(tolerance, number_at(volts, b), p);
    part_by(
        delay,
        strength(drive, y),
        factor_at(ratios, b),
        factor_at(dividers, b),
        p,
    )
}

// Lays two numbers a source at the start of the table, and gives the sum of their steps.
pub(crate) fn lay_shares(s: Study, b: usize, delay: u32, table: &mut [f64]) -> u64
    requires { 2 * length (network s).sources ≤ length table.old }
    ensures steps { result ≡ steps_from (part_at (network s) b delay) 0 (network s).sources }
    ensures table { table.new ≡ laid_over (table_of (part_at (network s) b delay) (network s).sources) table.old }
{
    let ways = ways_from(s, b);
    let tolerance = tolerance_of(s);
    let sources = sources_of(s);
    let total = source_total(s);
    let driven = drive(tolerance, number_at(&ways.volts, b));
    let mut steps = 0u64;
    let mut j: usize = 0;
    while j < total {
        let part = part_of(
            tolerance,
            delay,
            driven,
            &ways.volts,
            &ways.reach.ratios,
            &ways.reach.dividers,
            sources[j],
        );
        table[2 * j] = part.lower;
        table[2 * j + 1] = part.upper;
        steps += part.steps;
        j += 1;
    }
    steps
}
