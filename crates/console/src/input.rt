// Lines of standard input, by way of a block of its bytes.
ghost use Rattle.std.specs.Prelude.{◌≡◌, true, false, take};
ghost use Rattle.console.specs.Lines.{byte_left, step_at, without_return};

use std::io::Read;

pub(crate) const BLOCK: usize = 4096;

// Room for the longest line, the CR of its end and one byte more, by which a longer line is seen to be longer.
pub(crate) const LINE_ROOM: usize = 140_002;

// The bytes of the block that are not used yet: from `at` up to `filled`.
#[derive(Clone, Copy)]
pub(crate) struct Cursor {
    pub at: usize,
    pub filled: usize,
}

// The next byte, unless the input has ended.
#[derive(Clone, Copy)]
struct Step {
    ended: bool,
    byte: u8,
    cursor: Cursor,
}

// The bytes of a line, without its end, unless the input ended before it began.
#[derive(Clone, Copy)]
pub(crate) struct Line {
    pub ended: bool,
    pub length: usize,
    pub cursor: Cursor,
}

// Fills the block anew, and gives the number of bytes, 0 at the end of the input. A read that fails ends it too.
fn refill<R: Read>(input: &mut R, block: &mut [u8]) -> usize {
    match input.read(block) {
        Ok(n) => n,
        Err(_) => 0,
    }
}

// The first byte of the block filled anew.
fn first_byte<R: Read>(input: &mut R, block: &mut [u8; BLOCK]) -> Step
    ensures { result ≡ step_at block.new 0 result.cursor.filled }
{
    let filled = refill(input, block);
    Step {
        ended: filled == 0,
        byte: block[0],
        cursor: Cursor { at: 1, filled },
    }
}

// The byte at the cursor, of the block as it is; where none is left there, the first of the block filled anew. No contract can say what is
// read into it.
fn next_byte<R: Read>(input: &mut R, block: &mut [u8; BLOCK], cursor: Cursor) -> Step
    ensures left { byte_left cursor ≡ true → (result ≡ step_at block.old cursor.at cursor.filled) × (block.new ≡ block.old) }
    ensures refilled { byte_left cursor ≡ false → result ≡ step_at block.new 0 result.cursor.filled }
{
    let at = cursor.at;
    if at < cursor.filled {
        if at < BLOCK {
            return Step {
                ended: false,
                byte: block[at],
                cursor: Cursor {
                    at: at + 1,
                    filled: cursor.filled,
                },
            };
        }
    }
    first_byte(input, block)
}

// The length without a CR that ends the line.
fn without_return(line: &[u8; LINE_ROOM], length: usize) -> usize
    ensures { result ≡ without_return line.now length }
{
    if 0 < length {
        if length < LINE_ROOM {
            if line[length - 1] == b'\r' {
                return length - 1;
            }
        }
    }
    length
}

// Reads up to an LF or the end of the input. Of a line that is longer than the room the first bytes are kept.
pub(crate) fn read_line<R: Read>(
    input: &mut R,
    block: &mut [u8; BLOCK],
    cursor: Cursor,
    line: &mut [u8; LINE_ROOM],
) -> Line {
    let mut here = cursor;
    let mut length: usize = 0;
    for _ in 0..u64::MAX {
        let step = next_byte(input, block, here);
        here = step.cursor;
        if step.ended {
            return Line {
                ended: length == 0,
                length: without_return(line, length),
                cursor: here,
            };
        }
        if step.byte == b'\n' {
            return Line {
                ended: false,
                length: without_return(line, length),
                cursor: here,
            };
        }
        if length < LINE_ROOM {
            line[length] = step.byte;
            length += 1;
        }
    }
    Line {
        ended: true,
        length: 0,
        cursor: here,
    }
}

// The first bytes of a slice.
pub(crate) fn part(bytes: &[u8], length: usize) -> &[u8]
    ensures { result.now ≡ take length bytes.now }
{
    if length <= bytes.len() {
        return &bytes[0..length];
    }
    bytes
}

// The bytes of the line.
pub(crate) fn bytes_of(line: &[u8; LINE_ROOM], length: usize) -> &[u8]
    ensures { result.now ≡ take length line.now }
{
    part(line, length)
}
