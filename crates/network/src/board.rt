// A board: what the rows of a study are read off, made once for a call. What a bus gets is one row of it.
ghost use Rattle.std.specs.Prelude.{◌≡◌, take};
ghost use Rattle.network.specs.Doubles.{board_of};

use crate::columns::{TreeColumns, branches, standing_of, tree_of};
use crate::study::{BUSES, Bus, SOURCES, Source};
use enclosure::Complex;
use sweep::columns::{Points, clamped};
use sweep::converters::gathered_at_root;
use sweep::sweeps::{sweep_down, sweep_up};

// The tree; of the sweeps what is seen at each bus without its parent, and of its parent there; and the converters' currents gathered at
// bus 0. What no row reads is not kept: a call copies the board.
#[derive(Clone, Copy)]
pub struct Board {
    pub tree: TreeColumns,
    pub up: Points,
    pub fall: Points,
    pub gathered: Complex,
}

// The board of the first n bus records and the first m source records.
pub(crate) fn board_of(
    tolerance: u32,
    buses: [Bus; BUSES],
    n: usize,
    sources: [Source; SOURCES],
    m: usize,
) -> Board
    ensures { result ≡ board_of tolerance (take n buses) (take m sources) }
{
    let count = clamped(n);
    let tree = tree_of(buses, n);
    let z = branches(tolerance, buses, n, &tree.volts);
    let standing = standing_of(tolerance, &tree.volts, sources, m);
    let rises = sweep_up(
        &tree.parents,
        &tree.above,
        &tree.below,
        &z.re,
        &z.im,
        standing.own,
        count,
    );
    let falls = sweep_down(
        &tree.parents,
        &tree.above,
        &tree.below,
        &z.re,
        &z.im,
        &rises.rise.re,
        &rises.rise.im,
        &rises.before.re,
        &rises.before.im,
        count,
    );
    let gathered = gathered_at_root(
        &tree.parents,
        &tree.above,
        &tree.below,
        &standing.supplied.re,
        &standing.supplied.im,
        count,
    );
    let up = rises.up;
    let fall = falls.fall;
    Board {
        tree,
        up,
        fall,
        gathered,
    }
}
