// The rows of a board.
ghost use Rattle.std.specs.Prelude.{◌≡◌, ℕ};
ghost use Rattle.enclosure.specs.Doubles.{doubles};
ghost use Rattle.elements.specs.Factors.{factor_c};
ghost use Rattle.tree.specs.Converters.{from_root};
ghost use Rattle.sweep.specs.Points.{points, column_grid};
ghost use Rattle.sweep.specs.Sweep.{seen_of};
ghost use Rattle.network.specs.Demand.{amperes_of};
ghost use Rattle.network.specs.Doubles.{figures_by};

use crate::figures::figures;
use crate::query::Amperes;
use crate::study::BUSES;
use elements::factors::voltage_factor;
use enclosure::Complex;
use sweep::converters::from_root;
use sweep::sweeps::seen_at;

// The six amperes of bus b, by its nominal volts and the columns of a board.
pub(crate) fn row_at<'a>(
    tolerance: u32,
    volts: u32,
    parents: &'a [u32; BUSES],
    above: &'a [u32; BUSES],
    below: &'a [u32; BUSES],
    up_re: &'a [f64; BUSES],
    up_im: &'a [f64; BUSES],
    fall_re: &'a [f64; BUSES],
    fall_im: &'a [f64; BUSES],
    gathered: Complex,
    b: usize,
) -> Amperes
    ensures { (n : ℕ) → result ≡ amperes_of (figures_by (factor_c tolerance volts) volts (seen_of (points up_re.now up_im.now) (points fall_re.now fall_im.now) b) (from_root doubles (column_grid n parents.now above.now below.now) b gathered)) }
{
    let y = seen_at(up_re, up_im, fall_re, fall_im, b);
    let x = from_root(parents, above, below, b, gathered);
    let c = voltage_factor(tolerance, volts);
    figures(c, volts, y, x)
}
