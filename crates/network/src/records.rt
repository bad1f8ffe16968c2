// What a bus record stands for in the tree: its branch's impedance and rated volts.
ghost use Rattle.std.specs.Prelude.{◌≡◌, cond, min, eqb};
ghost use Rattle.network.specs.declared.study.Bus.{Bus};
ghost use Rattle.network.specs.Doubles.{branch_by};

use crate::study::Bus;
use elements::impedances::{line, transformer};
use enclosure::{Complex, nothing};

// The lower of two nominal voltages.
fn lower_volts(a: u32, b: u32) -> u32
    ensures { result ≡ min a b }
{
    if a < b { a } else { b }
}

// The impedance of a bus's branch on the bus's own side, by the nominal volts of its parent; nothing at bus 0.
pub(crate) fn branch_impedance(tolerance: u32, parent_volts: u32, b: Bus) -> Complex
    ensures { (parent : Bus) → parent.volts ≡ parent_volts → result ≡ branch_by tolerance parent b }
{
    let kind = b.kind;
    match kind {
        1 => line(b.f1, b.f2, b.f3, b.f4),
        2 => transformer(
            tolerance,
            lower_volts(parent_volts, b.volts),
            b.f2,
            b.f3,
            b.f4,
            b.f5,
        ),
        _ => nothing(),
    }
}

// Rated volts on one side of a branch of this kind: those of a transformer's record, 1 for a line.
pub(crate) fn rated_volts(kind: u32, volts: u32) -> u32
    ensures { result ≡ cond (eqb kind 2) volts 1 }
{
    if kind == 2 { volts } else { 1 }
}
