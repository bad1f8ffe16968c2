// The columns of a study: what the sweeps over its tree read of the records, a number or a point for each bus.
ghost use Rattle.std.specs.Prelude.{◌≡◌, take};
ghost use Rattle.network.specs.Doubles.{tree_of, branch_points, standing_of};

use crate::records::{branch_impedance, rated_volts};
use crate::source_kinds::{converter_current, is_converter, machine_admittance};
use crate::study::{BUSES, Bus, SOURCES, Source, clamped_sources};
use enclosure::add;
use sweep::columns::{Points, clamped, number_at, point_at};

// Of each bus its parent, rated volts of its branch on the parent's side and on its own, and its nominal volts; those of a blank record
// past the last bus.
#[derive(Clone, Copy)]
pub struct TreeColumns {
    pub parents: [u32; BUSES],
    pub above: [u32; BUSES],
    pub below: [u32; BUSES],
    pub volts: [u32; BUSES],
}

// What stands at each bus: the sum of its machines' admittances, and that of its converters' currents.
#[derive(Clone, Copy)]
pub struct Standing {
    pub own: Points,
    pub supplied: Points,
}

// The tree of the first n records.
pub(crate) fn tree_of(buses: [Bus; BUSES], n: usize) -> TreeColumns
    ensures { result ≡ tree_of (take n buses) }
{
    let mut parents = [0; BUSES];
    let mut above = [1; BUSES];
    let mut below = [1; BUSES];
    let mut volts = [0; BUSES];
    let m = clamped(n);
    let mut i = 0;
    while i < m {
        let b = buses[i];
        parents[i] = b.parent;
        above[i] = rated_volts(b.kind, b.f1);
        below[i] = rated_volts(b.kind, b.f2);
        volts[i] = b.volts;
        i += 1;
    }
    TreeColumns {
        parents,
        above,
        below,
        volts,
    }
}

// The impedances of the branches of the first n records, each on its bus's own side, by the column of nominal volts.
pub(crate) fn branches(
    tolerance: u32,
    buses: [Bus; BUSES],
    n: usize,
    volts: &[u32; BUSES],
) -> Points
    requires { volts.now ≡ (tree_of (take n buses)).volts }
    ensures { result ≡ branch_points tolerance (take n buses) }
{
    let mut re = [0.0; BUSES];
    let mut im = [0.0; BUSES];
    let m = clamped(n);
    let mut i = 0;
    while i < m {
        let b = buses[i];
        let parent_volts = number_at(volts, b.parent as usize);
        let z = branch_impedance(tolerance, parent_volts, b);
        re[i] = z.re;
        im[i] = z.im;
        i += 1;
    }
    Points { re, im }
}

// What stands at each bus, of the first n sources: its machines' admittances by the column of nominal volts, its converters' currents.
pub(crate) fn standing_of(
    tolerance: u32,
    volts: &[u32; BUSES],
    sources: [Source; SOURCES],
    n: usize,
) -> Standing
    ensures { result ≡ standing_of tolerance volts.now (take n sources) }
{
    let mut own_re = [0.0; BUSES];
    let mut own_im = [0.0; BUSES];
    let mut supplied_re = [0.0; BUSES];
    let mut supplied_im = [0.0; BUSES];
    let m = clamped_sources(n);
    let mut next = 0;
    while next < m {
        // counted on at once, so that each branch ends the turn
        let p = sources[next];
        next += 1;
        let b = p.bus as usize;
        if (b < BUSES) & is_converter(p) {
            let total = add(
                point_at(&supplied_re, &supplied_im, b),
                converter_current(p),
            );
            supplied_re[b] = total.re;
            supplied_im[b] = total.im;
        } else if b < BUSES {
            let more = machine_admittance(tolerance, number_at(volts, b), p);
            let total = add(point_at(&own_re, &own_im, b), more);
            own_re[b] = total.re;
            own_im[b] = total.im;
        }
    }
    let own = Points {
        re: own_re,
        im: own_im,
    };
    let supplied = Points {
        re: supplied_re,
        im: supplied_im,
    };
    Standing { own, supplied }
}
