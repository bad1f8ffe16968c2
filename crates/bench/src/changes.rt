// Sources added, withdrawn and replaced again and again, as bench/changes.c times them. It is proved safe and no more; by the count that it
// gives, bench/changes.c sees that no change was refused.
use network::calls::{add_source, reopen, replace, withdraw};
use network::study::{Source, Study, source_total};

// The study after one change: 0 an addition, 1 a withdrawal and an addition, anything else a replacement.
fn changed(s: Study, change: u32, place: u32) -> Study {
    let p = Source {
        kind: 4,
        bus: 0,
        f1: 1,
        f2: 100,
        f3: 0,
        f4: 0,
        f5: 0,
        low: 0,
        high: 0,
        transformer_kva: 0,
        uk: 0,
        ur: 0,
    };
    if change == 0 {
        let added = add_source(s, p);
        return added.study;
    }
    if change == 1 {
        let left = withdraw(s, place);
        let added = add_source(left.study, p);
        return added.study;
    }
    let replaced = replace(s, place, p);
    replaced.study
}

// A text read, its study reopened, and a change made k times, each on the study after the one before. How many sources there are then.
pub fn study_changes(text: &[u8], change: u32, place: u32, k: u32) -> usize {
    let reading = reader::read(text);
    let opened = reopen(reading.study);
    let mut study = opened.study;
    let mut i: u32 = 0;
    while i < k {
        study = changed(study, change, place);
        i += 1;
    }
    source_total(study)
}
