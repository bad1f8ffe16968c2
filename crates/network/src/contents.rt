// What a study holds, for the crates above. The arrays are given whole: a call for each record would copy the study each time.
ghost use Rattle.std.specs.Prelude.{◌≡◌, List, length, take};
ghost use Rattle.network.specs.Network.{network};
ghost use Rattle.network.specs.Grounds.{Call, run};
ghost use Rattle.network.specs.PlainList.{plain_run};

use crate::study::{BUSES, Bus, SOURCES, Source, Study};

// Its tolerance.
pub fn tolerance_of(s: Study) -> u32
    ensures { result ≡ (network s).tolerance }
{
    s.tolerance
}

// Whether it is closed.
pub fn is_closed(s: Study) -> bool
    ensures { result ≡ (network s).closed }
{
    s.closed
}

// Its buses: the first `bus_total` records of the array. What stands behind them means nothing.
pub fn buses_of(s: Study) -> [Bus; BUSES]
    ensures { take (length (network s).buses) result ≡ (network s).buses }
{
    s.buses
}

// Its sources: the first `source_total` records of the array. By the clause `plain` they are those of the plain list, whatever calls made
// the study.
pub fn sources_of(s: Study) -> [Source; SOURCES]
    ensures sources { take (length (network s).sources) result ≡ (network s).sources }
    ensures plain { (cs : List Call) → network s ≡ run cs → take (length (network s).sources) result ≡ plain_run cs }
{
    s.sources
}
