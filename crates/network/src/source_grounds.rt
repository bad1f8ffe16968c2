// The grounds in the input on which a source record is refused: a test for each, and the first that fails.
ghost use Rattle.std.specs.Prelude.{◌≡◌, true, List, ltb, length};
ghost use Rattle.network.specs.declared.study.Bus.{Bus};
ghost use Rattle.network.specs.Network.{bus_at};
ghost use Rattle.network.specs.Grounds.{machine_volts_ok, unit_volts_ok, feeder_place_ok, source_record_number};

use crate::checks::{rated_ok, unless};
use crate::source_kinds::{fields_ok, is_feeder, is_rated, is_unit, kind_ok, machine_volts};
use crate::study::{Bus, Source};

// Ground 13: the rated volts of a machine that has them, at bus b.
fn machine_volts_ok(b: Bus, p: Source) -> bool
    ensures { result ≡ machine_volts_ok b p }
{
    !is_rated(p) | rated_ok(machine_volts(p), b.volts)
}

// Ground 32: the generator's rated volts of a unit, against those of its transformer's low side.
fn unit_volts_ok(p: Source) -> bool
    ensures { result ≡ unit_volts_ok p }
{
    !is_unit(p) | rated_ok(p.f1, p.low)
}

// Ground 14: the first source is a feeder at bus 0, and no other is a feeder.
fn feeder_place_ok(j: usize, p: Source) -> bool
    ensures { result ≡ feeder_place_ok j p }
{
    let feeder = is_feeder(p);
    ((j == 0) & (feeder & (p.bus == 0))) | ((0 < j) & !feeder)
}

// The ground in the input on which the record of a source at place j is refused, 0 where it is accepted: by whether its bus is there,
// and by that bus's record.
pub(crate) fn source_record_number(there: bool, b: Bus, j: usize, p: Source) -> u32
    ensures { (l : List Bus) → ltb p.bus (length l) ≡ there → (there ≡ true → bus_at l p.bus ≡ b) → result ≡ source_record_number l j p }
{
    let kind = kind_ok(p);
    let fields = fields_ok(p);
    let volts = machine_volts_ok(b, p);
    let terminals = unit_volts_ok(p);
    let place = feeder_place_ok(j, p);
    let rest = unless(
        fields,
        12,
        unless(volts, 13, unless(terminals, 32, unless(place, 14, 0))),
    );
    unless(kind, 10, unless(there, 11, rest))
}
