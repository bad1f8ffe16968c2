// A study of 128 buses as text on standard input, closed and reported again and again; on standard output all numbers of all reports, added
// up. tests/check-report times it against query_rounds.
#![tactic(auto)]

use bench::closings::closed_reports;
use input::read_full;
use network::calls::reopen;
use network::report::ROW;
use network::study::BUSES;
use printing::{LINE, number_of, put_number, written};
use std::io;

// The bytes that a text may have.
const TEXT: usize = 65_536;

// The numbers of a report on 128 buses.
const TABLE: usize = BUSES * ROW;

// How often the study is closed and reported: so often that starting and reading weigh nothing.
const ROUNDS: u32 = 12_800;

fn main(rt: HostRuntime) -> io::Result<()> {
    let mut input = rt.stdin();
    let mut text = [0u8; TEXT];
    let n = read_full(&mut input, &mut text);
    let reading = reader::read(&text[..n]);
    let opened = reopen(reading.study);
    let study = opened.study;
    let mut table = [0.0; TABLE];
    let total = closed_reports(study, &mut table, ROUNDS);
    let mut line = [0u8; LINE];
    let end = put_number(&mut line, 0, number_of(total));
    rt.write_all(written(&line, end))?;
    rt.write_all(b"\n")
}
