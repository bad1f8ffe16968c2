// Answers of any length: one line of output in parts, each put into an array and written before the next; LF comes last.
ghost use Rattle.std.specs.Prelude.{◌≡◌, ◌*◌, ◌≤◌, length, take};
ghost use Rattle.printing.specs.Line.{room};
ghost use Rattle.console.specs.Answers.{chunk, chunk_count, chunk_of, hex_text, written_head};

use crate::hex::put_hex;
use crate::input::part;
use crate::words::after;
use printing::{LINE, put, put_next, put_number, written};
use std::io;

// How many bytes' digits fill a line.
const CHUNK: usize = 128;

// The number, the length, and the comma that stands before the digits even where there are none.
fn put_head(line: &mut [u8; LINE], number: u32, size: usize) -> usize
    requires { length line.old ≡ room }
    ensures { take result line.new ≡ written_head number size }
{
    let ground = put_number(line, 0, number as u64);
    let at = put_next(line, ground, size as u64);
    put(line, at, b",")
}

// The digits of one chunk of the bytes.
fn put_chunk(line: &mut [u8; LINE], bytes: &[u8], k: usize) -> usize
    requires line_len { length line.old ≡ room }
    requires chunk_in_bounds { k * chunk ≤ length bytes.now }
    ensures { take result line.new ≡ hex_text (chunk_of k bytes.now) }
{
    put_hex(line, 0, part(after(bytes, k * CHUNK), CHUNK))
}

// How many chunks so many bytes have; the last may be empty.
fn chunks(count: usize) -> usize
    ensures { result ≡ chunk_count count }
{
    count / CHUNK + 1
}

fn write_head(rt: &impl Print, number: u32, size: usize) -> io::Result<()> {
    let mut line = [0u8; LINE];
    let end = put_head(&mut line, number, size);
    rt.write_all(written(&line, end))
}

fn write_chunk(rt: &impl Print, bytes: &[u8], k: usize) -> io::Result<()>
    requires { k * chunk ≤ length bytes.now }
{
    let mut line = [0u8; LINE];
    let end = put_chunk(&mut line, bytes, k);
    rt.write_all(written(&line, end))
}

fn write_hex(rt: &impl Print, bytes: &[u8]) -> io::Result<()> {
    for k in 0..chunks(bytes.len()) {
        write_chunk(rt, bytes, k)?;
    }
    Ok(())
}

// What a call gave that was lent bytes, and all of these after it.
pub(crate) fn print_written(
    rt: &impl Print,
    number: u32,
    size: usize,
    lent: &[u8],
) -> io::Result<()> {
    write_head(rt, number, size)?;
    write_hex(rt, lent)?;
    rt.write_all(b"\n")
}
