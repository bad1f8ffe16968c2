// Ways from one bus of a study to each of its buses, for the crates that ask what part of a current comes from where.
ghost use Rattle.std.specs.Prelude.{◌≡◌};
ghost use Rattle.network.specs.Network.{network};
ghost use Rattle.network.specs.Doubles.{ways_from};

use crate::columns::{branches, standing_of, tree_of};
use crate::study::{BUSES, Study};
use sweep::columns::clamped;
use sweep::sweeps::{sweep_down, sweep_up};
use sweep::ways::{Reach, crossings_of, reach_of};

// The nominal volts of each bus, and the way to it.
#[derive(Clone, Copy)]
pub struct Ways {
    pub volts: [u32; BUSES],
    pub reach: Reach,
}

// The ways from bus b.
pub fn ways_from(s: Study, b: usize) -> Ways
    ensures { result ≡ ways_from (network s) b }
{
    let n = s.bus_count;
    let buses = s.buses;
    let sources = s.sources;
    let count = clamped(n);
    let tree = tree_of(buses, n);
    let z = branches(s.tolerance, buses, n, &tree.volts);
    let standing = standing_of(s.tolerance, &tree.volts, sources, s.source_count);
    let rises = sweep_up(
        &tree.parents,
        &tree.above,
        &tree.below,
        &z.re,
        &z.im,
        standing.own,
        count,
    );
    let falls = sweep_down(
        &tree.parents,
        &tree.above,
        &tree.below,
        &z.re,
        &z.im,
        &rises.rise.re,
        &rises.rise.im,
        &rises.before.re,
        &rises.before.im,
        count,
    );
    let crossings = crossings_of(
        &tree.above,
        &tree.below,
        &z.re,
        &z.im,
        &falls.down.re,
        &falls.down.im,
        &rises.up.re,
        &rises.up.im,
        count,
    );
    let reach = reach_of(
        &tree.parents,
        &crossings.divider_up,
        &crossings.divider_down,
        &crossings.ratio_up,
        &crossings.ratio_down,
        b,
        count,
    );
    let volts = tree.volts;
    Ways { volts, reach }
}
