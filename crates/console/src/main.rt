// The calls on a study by lines: each line of standard input names a call, and its answer is a line on standard output.
#![tactic(auto)]

mod answers;
mod calls;
mod hex;
mod input;
mod parts;
mod tables;
mod turns;
mod words;

ghost use Rattle.std.specs.Prelude.{◌≡◌, length};
ghost use Rattle.network.specs.Network.{network};
ghost use Rattle.console.specs.Effects.{effect_of, line_effect};

use answers::print_reply;
use calls::make_call;
use input::{Cursor, LINE_ROOM, bytes_of, read_line};
use network::study::Study;
use std::io;
use tables::TABLE;
use turns::{Reason, Turn, failed};

// The most bytes of a line.
const LINE_BYTES: usize = 140_000;

// The text and the table that calls are lent. Their lengths are README's, under which the effects of lines are proved.
fn lent_text() -> [u8; hex::TEXT]
    ensures { length result ≡ 70000 }
{
    [0u8; hex::TEXT]
}

fn lent_table() -> [f64; TABLE]
    ensures { length result ≡ 1100 }
{
    [0.0; TABLE]
}

// The turn of a line.
fn answer(s: Study, line: &[u8], text: &mut [u8; hex::TEXT], table: &mut [f64; TABLE]) -> Turn
    ensures { length text.old ≡ 70000 → length table.old ≡ 1100 → effect_of (text.new, table.new) result ≡ line_effect (network s) line.now }
{
    if LINE_BYTES < line.len() {
        return failed(s, Reason::Long);
    }
    make_call(s, line, text, table)
}

fn main(rt: HostRuntime) -> io::Result<()> {
    let mut input = rt.stdin();
    let mut block = [0u8; input::BLOCK];
    let mut line = [0u8; LINE_ROOM];
    let mut text = lent_text();
    let mut table = lent_table();
    let empty = network::calls::start(6);
    let mut study = empty.study;
    let mut cursor = Cursor { at: 0, filled: 0 };
    for _ in 0..u64::MAX {
        let got = read_line(&mut input, &mut block, cursor, &mut line);
        if got.ended {
            return Ok(());
        }
        cursor = got.cursor;
        let turn = answer(study, bytes_of(&line, got.length), &mut text, &mut table);
        let reply = turn.reply;
        print_reply(&rt, reply, &text, &table)?;
        study = turn.study;
    }
    Ok(())
}
