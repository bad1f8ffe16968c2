// What a bus gets, from the admittance and the current calculated there.
ghost use Rattle.std.specs.Prelude.{◌≡◌};
ghost use Rattle.network.specs.Doubles.{figures_by};
ghost use Rattle.network.specs.Demand.{amperes_of};

use crate::query::Amperes;
use elements::peaks::{converter_peak, current, machine_peak};
use enclosure::amperes::{peak_of, rms_of};
use enclosure::{Complex, enclose};

// The six amperes from the admittance y and the converters' current x at a bus; c is in hundredths.
pub(crate) fn figures(c: u32, volts: u32, y: Complex, x: Complex) -> Amperes
    ensures { result ≡ amperes_of (figures_by c volts y x) }
{
    let machines = enclose(current(y, c, volts), 1, 3);
    let converters = enclose(x, 1, 1);
    Amperes {
        lower: rms_of(machines.lower),
        upper: rms_of(machines.upper),
        converters_lower: rms_of(converters.lower),
        converters_upper: rms_of(converters.upper),
        peak: peak_of(machine_peak(y, c, volts)),
        converters_peak: peak_of(converter_peak(x)),
    }
}
