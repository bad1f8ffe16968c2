// A study: the records that it is given, and the room that it has for them.
ghost use Rattle.std.specs.Prelude.{◌≡◌, ◌<◌, min, length};
ghost use Rattle.tree.specs.Limits.{max_buses, max_sources};
ghost use Rattle.network.specs.Network.{blank, blank_source, network};
ghost use Rattle.network.specs.Grounds.{empty_of};

// The buses that a study has room for.
pub const BUSES: usize = sweep::BUSES;

// The sources that a study has room for.
pub const SOURCES: usize = 512;

// A bus with the branch to its parent. Of a line (kind 1) the fields are r, x, metres, circuits and 0; of a transformer (kind 2)
// rated volts on the parent's side and on its own, kVA, uk and uR; bus 0 has kind 0 and no branch.
#[derive(Clone, Copy)]
pub struct Bus {
    pub parent: u32,
    pub volts: u32,
    pub kind: u32,
    pub f1: u32,
    pub f2: u32,
    pub f3: u32,
    pub f4: u32,
    pub f5: u32,
    pub rating: u32,
    pub peak_rating: u32,
}

// A source at a bus: feeder (kind 1), generator (2), motor (3), converter (4) or power station unit (5), with five fields by its kind. Of a
// unit these are its generator's, and five more its transformer's: rated volts on the low and on the high side, kVA, uk and uR. Of any other
// kind the five more are 0.
#[derive(Clone, Copy)]
pub struct Source {
    pub kind: u32,
    pub bus: u32,
    pub f1: u32,
    pub f2: u32,
    pub f3: u32,
    pub f4: u32,
    pub f5: u32,
    pub low: u32,
    pub high: u32,
    pub transformer_kva: u32,
    pub uk: u32,
    pub ur: u32,
}

#[derive(Clone, Copy)]
pub struct Study {
    pub(crate) tolerance: u32,
    pub(crate) closed: bool,
    pub(crate) bus_count: usize,
    pub(crate) buses: [Bus; BUSES],
    pub(crate) source_count: usize,
    pub(crate) sources: [Source; SOURCES],
}

pub(crate) fn blank_bus() -> Bus
    ensures { result ≡ blank }
{
    Bus {
        parent: 0,
        volts: 0,
        kind: 0,
        f1: 0,
        f2: 0,
        f3: 0,
        f4: 0,
        f5: 0,
        rating: 0,
        peak_rating: 0,
    }
}

fn blank_source() -> Source
    ensures { result ≡ blank_source }
{
    Source {
        kind: 0,
        bus: 0,
        f1: 0,
        f2: 0,
        f3: 0,
        f4: 0,
        f5: 0,
        low: 0,
        high: 0,
        transformer_kva: 0,
        uk: 0,
        ur: 0,
    }
}

// The number of buses.
pub fn bus_total(s: Study) -> usize
    ensures { result ≡ length (network s).buses }
{
    if s.bus_count < BUSES {
        return s.bus_count;
    }
    BUSES
}

// The number of sources.
pub fn source_total(s: Study) -> usize
    ensures { result ≡ length (network s).sources }
{
    if s.source_count < SOURCES {
        return s.source_count;
    }
    SOURCES
}

// n, or the greatest number of sources for any more.
pub(crate) fn clamped_sources(n: usize) -> usize
    ensures { result ≡ min n max_sources }
{
    if n < SOURCES { n } else { SOURCES }
}

// The place of bus i in the array; some place, where the array has none for it.
pub(crate) fn place_in(i: usize) -> usize
    ensures { (result < max_buses) × (i < max_buses → result ≡ i) }
{
    if i < BUSES { i } else { 0 }
}

// An open study without records.
pub(crate) fn empty_study(tolerance: u32) -> Study
    ensures { network result ≡ empty_of tolerance }
{
    let bus = blank_bus();
    let source = blank_source();
    Study {
        tolerance,
        closed: false,
        bus_count: 0,
        buses: [bus; BUSES],
        source_count: 0,
        sources: [source; SOURCES],
    }
}
