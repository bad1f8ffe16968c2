// Input as a whole.
#![tactic(auto)]

ghost use Rattle.std.specs.Prelude.{◌≤◌, length, take};
ghost use Rattle.std.specs.Io.KnownBytes.{Consumes};

use std::io::Read;

// Reads until the text is full or the input ends, and gives how many bytes are at the start of the text: the input's own, in order. A read
// that fails ends the input too.
pub fn read_full<R: Read>(input: &mut R, text: &mut [u8]) -> usize
    ensures bound { result ≤ length text.new }
    ensures bytes { Consumes (R.remaining input.old) (R.remaining input.new) (take result text.new) }
{
    let mut done: usize = 0;
    while done < text.len() {
        let n = read_once(input, &mut text[done..]);
        if n == 0 {
            return done;
        }
        done += n;
    }
    done
}

// One read, 0 where the input has ended or the read fails.
fn read_once<R: Read>(input: &mut R, text: &mut [u8]) -> usize
    ensures bound { result ≤ length text.new }
    ensures bytes { Consumes (R.remaining input.old) (R.remaining input.new) (take result text.new) }
{
    match input.read(text) {
        Ok(n) => n,
        Err(_) => 0,
    }
}
