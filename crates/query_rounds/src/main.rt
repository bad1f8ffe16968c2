// A study of 128 buses as text on standard input, closed and queried for one bus again and again, the buses in turn; on standard output the
// six figures of all queries, added up. tests/check-report times report_rounds against it.
#![tactic(auto)]

use bench::closings::closed_queries;
use input::read_full;
use network::calls::reopen;
use printing::{LINE, number_of, put_number, written};
use std::io;

// The bytes that a text may have.
const TEXT: usize = 65_536;

// The last of the 128 buses, which are asked for in turn.
const LAST: u8 = 127;

// How often the study is closed and queried: a hundred times for each bus, so often that starting and reading weigh nothing.
const ROUNDS: u32 = 12_800;

fn main(rt: HostRuntime) -> io::Result<()> {
    let mut input = rt.stdin();
    let mut text = [0u8; TEXT];
    let n = read_full(&mut input, &mut text);
    let reading = reader::read(&text[..n]);
    let opened = reopen(reading.study);
    let study = opened.study;
    let total = closed_queries(study, LAST, ROUNDS);
    let mut line = [0u8; LINE];
    let end = put_number(&mut line, 0, number_of(total));
    rt.write_all(written(&line, end))?;
    rt.write_all(b"\n")
}
