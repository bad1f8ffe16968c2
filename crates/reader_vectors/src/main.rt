// Reads texts and prints of each, on a line: number and row, what closing the study then answers (21 where the text closed it), and how
// many buses it has.
#![tactic(auto)]

ghost use Rattle.std.specs.Prelude.{◌≤◌, length};

use std::io;

fn field(rt: &impl Print, n: u64) -> io::Result<()> {
    print!(rt; "{n},")
}

fn wide(n: u32) -> u64 {
    n as u64
}

fn tell(rt: &impl Print, text: &[u8]) -> io::Result<()> {
    let r = reader::read(text);
    let study = r.study;
    field(rt, wide(r.number))?;
    field(rt, wide(r.row))?;
    field(rt, wide(network::calls::close(study).number))?;
    let total = network::study::bus_total(study);
    println!(rt; "{total}")
}

// Accepted texts.
fn accepted(rt: &impl Print) -> io::Result<()> {
    tell(
        rt,
        b"S,6\r\nB,0,20000,0,0,0,0,0,0,25000,63000\r\nP,1,0,500000,10,0,0,0",
    )?;
    tell(
        rt,
        b"S,6\r\nB,0,20000,0,0,0,0,0,0,25000,63000\r\nP,1,0,500000,10,0,0,0\r\n",
    )?;
    tell(
        rt,
        b"S,10\r\nB,0,20000,0,0,0,0,0,0,25000,63000\r\nP,1,0,500000,10,0,0,0\r\nB,0,20000,1,200,350,1500,1,0,25000,63000\r\nP,2,1,20000,5000,18000,5,80\r\nB,1,400,2,20000,400,1000,6000,1000,25000,63000\r\nP,3,2,400,100,60,42,0\r\nP,4,2,1000,200,0,0,0\r\n",
    )
}

// Texts whose first row breaks the form.
fn forms(rt: &impl Print) -> io::Result<()> {
    tell(rt, b"")?;
    tell(rt, b"\r\n")?;
    tell(rt, b"S")?;
    tell(rt, b"S,")?;
    tell(rt, b"S,\r\n")?;
    tell(rt, b"S,6,0\r\n")?;
    tell(rt, b"s,6\r\n")?;
    tell(rt, b"S;6\r\n")?;
    tell(rt, b"S 6\r\n")?;
    tell(rt, b"\"S\",6\r\n")?;
    tell(rt, b"S,\"6\"\r\n")?;
    tell(rt, b"S, 6\r\n")?;
    tell(rt, b"S,+6\r\n")?;
    tell(rt, b"S,-6\r\n")?;
    tell(rt, b"S,6 \r\n")?;
    tell(rt, b" S,6\r\n")?;
    tell(rt, b"S,6.0\r\n")?;
    tell(rt, b",6\r\n")?;
    tell(rt, b"SS,6\r\n")?;
    tell(rt, b"B,0,20000,0,0,0,0,0,0,25000,63000\r\n")?;
    tell(rt, b"P,1,0,500000,10,0,0,0\r\n")
}

// The form of a number: refused by 16, and by 1 where the form is right.
fn numbers(rt: &impl Print) -> io::Result<()> {
    tell(rt, b"S,0\r\n")?;
    tell(rt, b"S,00\r\n")?;
    tell(rt, b"S,06\r\n")?;
    tell(rt, b"S,4294967295\r\n")?;
    tell(rt, b"S,4294967296\r\n")?;
    tell(rt, b"S,9999999999\r\n")?;
    tell(rt, b"S,0000000006\r\n")?;
    tell(rt, b"S,12345678901\r\n")?;
    tell(rt, b"S,1:\r\n")?;
    tell(rt, b"S,/1\r\n")
}

// Line ends: CRLF alone ends a row.
fn line_ends(rt: &impl Print) -> io::Result<()> {
    tell(
        rt,
        b"S,6\nB,0,20000,0,0,0,0,0,0,25000,63000\r\nP,1,0,500000,10,0,0,0\r\n",
    )?;
    tell(
        rt,
        b"S,6\rB,0,20000,0,0,0,0,0,0,25000,63000\r\nP,1,0,500000,10,0,0,0\r\n",
    )?;
    tell(
        rt,
        b"S,6\n\rB,0,20000,0,0,0,0,0,0,25000,63000\r\nP,1,0,500000,10,0,0,0\r\n",
    )?;
    tell(
        rt,
        b"S,6\r\r\nB,0,20000,0,0,0,0,0,0,25000,63000\r\nP,1,0,500000,10,0,0,0\r\n",
    )?;
    tell(
        rt,
        b"S,6\r\n\r\nB,0,20000,0,0,0,0,0,0,25000,63000\r\nP,1,0,500000,10,0,0,0\r\n",
    )?;
    tell(
        rt,
        b"S,6\r\nB,0,20000,0,0,0,0,0,0,25000,63000\r\nP,1,0,500000,10,0,0,0\r\n\r\n",
    )?;
    tell(
        rt,
        b"S,6\r\nB,0,20000,0,0,0,0,0,0,25000,63000\r\nP,1,0,500000,10,0,0,0\r\n\n",
    )?;
    tell(
        rt,
        b"S,6\r\nB,0,20000,0,0,0,0,0,0,25000,63000\r\nP,1,0,500000,10,0,0,0\r",
    )
}

// Rows after the first that break the form, also where their record would be refused.
fn rows(rt: &impl Print) -> io::Result<()> {
    tell(
        rt,
        b"S,6\r\nS,6\r\nB,0,20000,0,0,0,0,0,0,25000,63000\r\nP,1,0,500000,10,0,0,0\r\n",
    )?;
    tell(rt, b"S,6\r\nX,1\r\n")?;
    tell(rt, b"S,6\r\nB\r\n")?;
    tell(
        rt,
        b"S,6\r\nB,0,20000,0,0,0,0,0,0,25000\r\nP,1,0,500000,10,0,0,0\r\n",
    )?;
    tell(
        rt,
        b"S,6\r\nB,0,20000,0,0,0,0,0,0,25000,63000,0\r\nP,1,0,500000,10,0,0,0\r\n",
    )?;
    tell(
        rt,
        b"S,6\r\nB,0,20000,0,0,0,0,0,0,25000,63000,\r\nP,1,0,500000,10,0,0,0\r\n",
    )?;
    tell(
        rt,
        b"S,6\r\nB,0,20000,0,0,,0,0,0,25000,63000\r\nP,1,0,500000,10,0,0,0\r\n",
    )?;
    tell(
        rt,
        b"S,6\r\nB,0,20000,0,0,0,0,0,0,25000,63000\r\nP,1,0,500000,10,0,0\r\n",
    )?;
    tell(
        rt,
        b"S,6\r\nB,0,20000,0,0,0,0,0,0,25000,63000\r\nP,1,0,500000,10,0,0,0,0\r\n",
    )?;
    tell(rt, b"S,6\r\nB,7,99,5,0,0,0,0,0,0,x\r\n")?;
    tell(
        rt,
        b"S,6\r\nB,0,20000,0,0,0,0,0,0,25000,63000\r\nP,9,9,9,9,9,9,09\r\n",
    )?;
    tell(rt, b"S,7\r\nB,x\r\n")
}

// Grounds 1 to 9, and which of two comes first.
fn bus_grounds(rt: &impl Print) -> io::Result<()> {
    tell(
        rt,
        b"S,7\r\nB,0,20000,0,0,0,0,0,0,25000,63000\r\nP,1,0,500000,10,0,0,0\r\n",
    )?;
    tell(rt, b"S,6\r\nB,0,99,0,0,0,0,0,0,25000,63000\r\n")?;
    tell(rt, b"S,6\r\nB,0,99,0,0,0,0,0,0,0,0\r\n")?;
    tell(rt, b"S,6\r\nB,1,20000,0,0,0,0,0,0,25000,63000\r\n")?;
    tell(rt, b"S,6\r\nB,0,20000,1,0,0,0,0,0,25000,63000\r\n")?;
    tell(rt, b"S,6\r\nB,0,20000,0,0,0,1,0,0,25000,63000\r\n")?;
    tell(
        rt,
        b"S,6\r\nB,0,20000,0,0,0,0,0,0,25000,63000\r\nB,0,20000,1,0,0,1500,1,0,25000,63000\r\n",
    )?;
    tell(
        rt,
        b"S,6\r\nB,0,20000,0,0,0,0,0,0,25000,63000\r\nB,0,20001,1,200,350,1500,1,0,25000,63000\r\n",
    )?;
    tell(
        rt,
        b"S,6\r\nB,0,20000,0,0,0,0,0,0,25000,63000\r\nB,0,400,2,17999,400,1000,6000,1000,25000,63000\r\n",
    )?;
    tell(
        rt,
        b"S,6\r\nB,0,20000,0,0,0,0,0,0,25000,63000\r\nB,0,20000,2,20000,20000,1000,6000,1000,25000,63000\r\nB,1,20000,2,20000,20000,1000,6000,1000,25000,63000\r\nB,2,20000,2,20000,20000,1000,6000,1000,25000,63000\r\nB,3,20000,2,20000,20000,1000,6000,1000,25000,63000\r\nB,4,20000,2,20000,20000,1000,6000,1000,25000,63000\r\n",
    )?;
    tell(rt, b"S,6\r\nB,0,20000,0,0,0,0,0,0,0,63000\r\n")
}

// Grounds 10 to 14, and 25.
fn source_grounds(rt: &impl Print) -> io::Result<()> {
    tell(
        rt,
        b"S,6\r\nB,0,20000,0,0,0,0,0,0,25000,63000\r\nP,6,0,500000,10,0,0,0\r\n",
    )?;
    tell(
        rt,
        b"S,6\r\nB,0,20000,0,0,0,0,0,0,25000,63000\r\nP,1,1,500000,10,0,0,0\r\n",
    )?;
    tell(
        rt,
        b"S,6\r\nB,0,20000,0,0,0,0,0,0,25000,63000\r\nP,1,0,999,10,0,0,0\r\n",
    )?;
    tell(
        rt,
        b"S,6\r\nB,0,20000,0,0,0,0,0,0,25000,63000\r\nP,1,0,500000,10,0,0,0\r\nP,2,0,17999,5000,18000,5,80\r\n",
    )?;
    tell(
        rt,
        b"S,6\r\nB,0,20000,0,0,0,0,0,0,25000,63000\r\nP,4,0,1000,200,0,0,0\r\n",
    )?;
    tell(
        rt,
        b"S,6\r\nB,0,20000,0,0,0,0,0,0,25000,63000\r\nP,1,0,500000,10,0,0,0\r\nP,1,0,500000,10,0,0,0\r\n",
    )?;
    tell(rt, b"S,6")?;
    tell(rt, b"S,6\r\n")?;
    tell(rt, b"S,6\r\nB,0,20000,0,0,0,0,0,0,25000,63000\r\n")
}

// The bytes of a row put into a text from a place on, as far as there is room; the place after them.
fn put(text: &mut [u8], at: usize, row: &[u8]) -> usize
    requires { at ≤ length text.old }
    ensures { result ≤ length text.old }
{
    let mut next = at;
    let mut i = 0;
    while i < row.len() {
        if text.len() <= next {
            return next;
        }
        text[next] = row[i];
        next += 1;
        i += 1;
    }
    next
}

// A text of rows, of one row several times, and of a last one.
fn repeated(rt: &impl Print, head: &[u8], row: &[u8], times: usize, last: &[u8]) -> io::Result<()> {
    let mut text = [0u8; 16384];
    let mut at = put(&mut text, 0, head);
    for _ in 0..times {
        at = put(&mut text, at, row);
    }
    at = put(&mut text, at, last);
    tell(rt, &text[..at])
}

// As many buses as the edition before had room for and one more, a full table, and one bus more: 23 before its own ground, 16 before 23.
fn bus_tables(rt: &impl Print) -> io::Result<()> {
    repeated(
        rt,
        b"S,6\r\nB,0,20000,0,0,0,0,0,0,25000,63000\r\n",
        b"B,0,20000,1,200,350,1500,1,0,25000,63000\r\n",
        63,
        b"P,1,0,500000,10,0,0,0\r\n",
    )?;
    repeated(
        rt,
        b"S,6\r\nB,0,20000,0,0,0,0,0,0,25000,63000\r\n",
        b"B,0,20000,1,200,350,1500,1,0,25000,63000\r\n",
        64,
        b"P,1,0,500000,10,0,0,0\r\n",
    )?;
    repeated(
        rt,
        b"S,6\r\nB,0,20000,0,0,0,0,0,0,25000,63000\r\n",
        b"B,0,20000,1,200,350,1500,1,0,25000,63000\r\n",
        127,
        b"P,1,0,500000,10,0,0,0\r\n",
    )?;
    repeated(
        rt,
        b"S,6\r\nB,0,20000,0,0,0,0,0,0,25000,63000\r\n",
        b"B,0,20000,1,200,350,1500,1,0,25000,63000\r\n",
        128,
        b"P,1,0,500000,10,0,0,0\r\n",
    )?;
    repeated(
        rt,
        b"S,6\r\nB,0,20000,0,0,0,0,0,0,25000,63000\r\n",
        b"B,0,20000,1,200,350,1500,1,0,25000,63000\r\n",
        127,
        b"B,128,99,3,0,0,0,0,0,0,0\r\n",
    )?;
    repeated(
        rt,
        b"S,6\r\nB,0,20000,0,0,0,0,0,0,25000,63000\r\n",
        b"B,0,20000,1,200,350,1500,1,0,25000,63000\r\n",
        127,
        b"B,0\r\n",
    )
}

// The same with sources: 24 before the own ground, 16 before 24.
fn source_tables(rt: &impl Print) -> io::Result<()> {
    repeated(
        rt,
        b"S,6\r\nB,0,20000,0,0,0,0,0,0,25000,63000\r\nP,1,0,500000,10,0,0,0\r\n",
        b"P,4,0,1,100,0,0,0\r\n",
        255,
        b"",
    )?;
    repeated(
        rt,
        b"S,6\r\nB,0,20000,0,0,0,0,0,0,25000,63000\r\nP,1,0,500000,10,0,0,0\r\n",
        b"P,4,0,1,100,0,0,0\r\n",
        256,
        b"",
    )?;
    repeated(
        rt,
        b"S,6\r\nB,0,20000,0,0,0,0,0,0,25000,63000\r\nP,1,0,500000,10,0,0,0\r\n",
        b"P,4,0,1,100,0,0,0\r\n",
        511,
        b"",
    )?;
    repeated(
        rt,
        b"S,6\r\nB,0,20000,0,0,0,0,0,0,25000,63000\r\nP,1,0,500000,10,0,0,0\r\n",
        b"P,4,0,1,100,0,0,0\r\n",
        512,
        b"",
    )?;
    repeated(
        rt,
        b"S,6\r\nB,0,20000,0,0,0,0,0,0,25000,63000\r\nP,1,0,500000,10,0,0,0\r\n",
        b"P,4,0,1,100,0,0,0\r\n",
        511,
        b"P,5,0,1,100,0,0,0\r\n",
    )?;
    repeated(
        rt,
        b"S,6\r\nB,0,20000,0,0,0,0,0,0,25000,63000\r\nP,1,0,500000,10,0,0,0\r\n",
        b"P,4,0,1,100,0,0,0\r\n",
        511,
        b"P,4\r\n",
    )
}

// Source rows of twelve fields, power station units among them.
fn units(rt: &impl Print) -> io::Result<()> {
    tell(
        rt,
        b"S,6\r\nB,0,20000,0,0,0,0,0,0,25000,63000\r\nP,1,0,500000,10,0,0,0,0,0,0,0,0\r\n",
    )?;
    tell(
        rt,
        b"S,6\r\nB,0,20000,0,0,0,0,0,0,25000,63000\r\nP,1,0,500000,10,0,0,0\r\nP,5,0,6300,12000,14000,4,85,6000,21000,12500,8000,500\r\n",
    )?;
    tell(
        rt,
        b"S,6\r\nB,0,20000,0,0,0,0,0,0,25000,63000\r\nP,1,0,500000,10,0,0,0\r\nP,5,0,6300,12000,14000,4,85,6000,21000,12500,8000,500",
    )?;
    tell(
        rt,
        b"S,6\r\nB,0,20000,0,0,0,0,0,0,25000,63000\r\nP,1,0,500000,10,0,0,0,0,0,0\r\n",
    )?;
    tell(
        rt,
        b"S,6\r\nB,0,20000,0,0,0,0,0,0,25000,63000\r\nP,1,0,500000,10,0,0,0,0,0,0,0\r\n",
    )?;
    tell(
        rt,
        b"S,6\r\nB,0,20000,0,0,0,0,0,0,25000,63000\r\nP,1,0,500000,10,0,0,0,0,0,0,0,0,0\r\n",
    )?;
    tell(
        rt,
        b"S,6\r\nB,0,20000,0,0,0,0,0,0,25000,63000\r\nP,1,0,500000,10,0,0,0\r\nP,5,0,6300,12000,14000,4,85,6000,21000,12500,8000\r\n",
    )?;
    tell(
        rt,
        b"S,6\r\nB,0,20000,0,0,0,0,0,0,25000,63000\r\nP,1,0,500000,10,0,0,0\r\nP,5,0,6300,12000,14000,4,85,6000,21000,12500,8000,\r\n",
    )?;
    tell(
        rt,
        b"S,6\r\nB,0,20000,0,0,0,0,0,0,25000,63000\r\nP,1,0,500000,10,0,0,0\r\nP,9,9,9,9,9,9,9,9,9,9,9,9,9\r\n",
    )?;
    tell(
        rt,
        b"S,6\r\nB,0,20000,0,0,0,0,0,0,25000,63000\r\nP,1,0,500000,10,0,0,0,0,0,0,0,1\r\n",
    )?;
    tell(
        rt,
        b"S,6\r\nB,0,20000,0,0,0,0,0,0,25000,63000\r\nP,1,0,500000,10,0,0,0\r\nP,5,0,6300,12000,14000,4,85\r\n",
    )?;
    tell(
        rt,
        b"S,6\r\nB,0,20000,0,0,0,0,0,0,25000,63000\r\nP,1,0,500000,10,0,0,0\r\nP,5,0,80,12000,14000,4,85,89,21000,12500,8000,500\r\n",
    )?;
    tell(
        rt,
        b"S,6\r\nB,0,20000,0,0,0,0,0,0,25000,63000\r\nP,1,0,500000,10,0,0,0\r\nP,5,0,81,12000,14000,4,85,90,21000,12500,8000,500\r\n",
    )?;
    tell(
        rt,
        b"S,6\r\nB,0,20000,0,0,0,0,0,0,25000,63000\r\nP,1,0,500000,10,0,0,0\r\nP,5,0,508200,12000,14000,4,85,462000,21000,12500,8000,500\r\n",
    )?;
    tell(
        rt,
        b"S,6\r\nB,0,20000,0,0,0,0,0,0,25000,63000\r\nP,1,0,500000,10,0,0,0\r\nP,5,0,508200,12000,14000,4,85,462001,21000,12500,8000,500\r\n",
    )?;
    tell(
        rt,
        b"S,6\r\nB,0,20000,0,0,0,0,0,0,25000,63000\r\nP,1,0,500000,10,0,0,0\r\nP,5,0,5399,12000,14000,4,85,6000,22001,12500,8000,500\r\n",
    )?;
    tell(
        rt,
        b"S,6\r\nB,0,20000,0,0,0,0,0,0,25000,63000\r\nP,1,0,500000,10,0,0,0\r\nP,5,0,5399,12000,14000,4,85,6000,22000,12500,8000,500\r\n",
    )?;
    tell(
        rt,
        b"S,6\r\nB,0,20000,0,0,0,0,0,0,25000,63000\r\nP,1,0,500000,10,0,0,0\r\nP,5,0,6601,12000,14000,4,85,6000,18000,12500,8000,500\r\n",
    )?;
    tell(
        rt,
        b"S,6\r\nB,0,20000,0,0,0,0,0,0,25000,63000\r\nP,5,0,6601,12000,14000,4,85,6000,18000,12500,8000,500\r\n",
    )?;
    tell(
        rt,
        b"S,6\r\nB,0,20000,0,0,0,0,0,0,25000,63000\r\nP,5,0,6300,12000,14000,4,85,6000,21000,12500,8000,500\r\n",
    )
}

// The most bytes that a text may have, and one more.
fn longest(rt: &impl Print) -> io::Result<()> {
    let mut text = [b'7'; 65537];
    text[0] = b'S';
    text[1] = b',';
    text[2] = b'6';
    text[3] = b'\r';
    text[4] = b'\n';
    tell(rt, &text[..65536])?;
    tell(rt, &text)
}

fn main(rt: HostRuntime) -> io::Result<()> {
    let rt = &rt;
    accepted(rt)?;
    forms(rt)?;
    numbers(rt)?;
    line_ends(rt)?;
    rows(rt)?;
    bus_grounds(rt)?;
    source_grounds(rt)?;
    bus_tables(rt)?;
    source_tables(rt)?;
    units(rt)?;
    longest(rt)
}
