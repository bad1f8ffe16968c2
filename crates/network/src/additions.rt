// Several additions in one call. A study goes into a call and comes out by value, so that one call for each record copies it for each.
ghost use Rattle.std.specs.Prelude.{◌≡◌, map, length, take};
ghost use Rattle.network.specs.Network.{network};
ghost use Rattle.network.specs.Additions.{no_additions, listed, added_network, added_from, called};
ghost use Rattle.network.specs.Grounds.{run_from};

use crate::calls::{bus_number, source_number};
use crate::study::{BUSES, Bus, Source, Study, blank_bus, place_in};

// The additions that one call has room for.
pub const ADDITIONS: usize = 32;

// A record that is to be added.
#[derive(Clone, Copy)]
pub enum Addition {
    OfBus(Bus),
    OfSource(Source),
}

// A place for one: an array in a struct holds structs.
#[derive(Clone, Copy)]
pub struct Entry {
    pub addition: Addition,
}

// Additions in order: the first of them, as many as are counted.
#[derive(Clone, Copy)]
pub struct Additions {
    pub count: usize,
    pub entries: [Entry; ADDITIONS],
}

// What they come to: the number of the first that is refused, 0 where none is, how many are accepted before it, and the study after
// these.
#[derive(Clone, Copy)]
pub struct Added {
    pub number: u32,
    pub accepted: usize,
    pub study: Study,
}

// No addition yet.
pub fn no_additions() -> Additions
    ensures { result ≡ no_additions }
{
    let blank = blank_bus();
    let addition = Addition::OfBus(blank);
    let entry = Entry { addition };
    Additions {
        count: 0,
        entries: [entry; ADDITIONS],
    }
}

// How many additions there are.
fn total_of(more: Additions) -> usize
    ensures { result ≡ length (listed more) }
{
    if more.count < ADDITIONS {
        return more.count;
    }
    ADDITIONS
}

// The study with records more, one after the other as `add_bus` and `add_source` take them, up to the first that is refused; those before
// it stay. By the clause `calls` it is the study after those calls.
pub fn add_all(s: Study, more: Additions) -> Added
    ensures added { added_network result ≡ added_from 0 (network s) (listed more) }
    ensures kept { result.accepted ≡ 0 → result.study ≡ s }
    ensures calls { network result.study ≡ run_from (network s) (map called (take result.accepted (listed more))) }
{
    let total = total_of(more);
    let mut study = s;
    let mut i: usize = 0;
    while i < total {
        let entry = more.entries[i];
        let next = i + 1;
        let addition = entry.addition;
        match addition {
            Addition::OfBus(b) => {
                let buses = study.buses;
                let number = bus_number(study.closed, buses, study.bus_count, b);
                if number != 0 {
                    return Added {
                        number,
                        accepted: i,
                        study,
                    };
                }
                let n = study.bus_count;
                study.buses[n] = b;
                study.bus_count = n + 1;
            }
            Addition::OfSource(p) => {
                let bus = p.bus as usize;
                let place = place_in(bus);
                let b = study.buses[place];
                let there = (bus < study.bus_count) & (bus < BUSES);
                let number = source_number(study.closed, study.source_count, there, b, p);
                if number != 0 {
                    return Added {
                        number,
                        accepted: i,
                        study,
                    };
                }
                let n = study.source_count;
                study.sources[n] = p;
                study.source_count = n + 1;
            }
        }
        i = next;
    }
    Added {
        number: 0,
        accepted: i,
        study,
    }
}
