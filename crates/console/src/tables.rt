// The table that `breaking` and `report` are lent, and their answers in parts: the head, then a few of the numbers at a time; LF comes last.
ghost use Rattle.std.specs.Prelude.{◌≡◌, ◌*◌, ◌≤◌, length, take, replicate};
ghost use Rattle.printing.specs.Line.{room, after_text};
ghost use Rattle.printing.specs.Printed.{whole_of, decimal, next_text};
ghost use Rattle.console.specs.Answers.{table_filler, broken_head, numbers_text, few, few_count, few_of};

use printing::{LINE, number_of, put_next, put_number, written};
use std::io;

// The most numbers that a call is lent, and the most that a report is.
pub(crate) const TABLE: usize = 1_100;

pub(crate) const REPORT_TABLE: usize = 1_000;

// How many numbers fill a line.
const FEW: usize = 12;

// Gives each lent number one value, so that the numbers that the call keeps are seen to be kept.
pub(crate) fn fill_table(table: &mut [f64])
    ensures { table.new ≡ replicate (length table.old) table_filler }
{
    let mut i: usize = 0;
    while i < table.len() {
        table[i] = 7.0;
        i += 1;
    }
}

// The first numbers of a table.
pub(crate) fn first_numbers(table: &[f64], count: usize) -> &[f64]
    ensures { result.now ≡ take count table.now }
{
    if count <= table.len() {
        return &table[0..count];
    }
    table
}

// A few of the numbers, counted from 0.
fn few_of(table: &[f64], k: usize) -> &[f64]
    requires { k * few ≤ length table.now }
    ensures { result.now ≡ few_of k table.now }
{
    first_numbers(&table[k * FEW..], FEW)
}

// Puts a comma and a number without its fraction.
fn put_whole(line: &mut [u8; LINE], at: usize, x: f64) -> usize
    ensures { after_text (line.old, at) (next_text (whole_of x)) ≡ (line.new, result) }
{
    put_next(line, at, number_of(x))
}

// Puts each number in turn, behind a comma.
fn put_numbers(line: &mut [u8; LINE], at: usize, numbers: &[f64]) -> usize
    ensures { after_text (line.old, at) (numbers_text numbers.now) ≡ (line.new, result) }
{
    let mut to = at;
    let mut i: usize = 0;
    while i < numbers.len() {
        to = put_whole(line, to, numbers[i]);
        i += 1;
    }
    to
}

// The number of the ground, and the figure.
fn put_broken(line: &mut [u8; LINE], number: u32, figure: f64) -> usize
    requires { length line.old ≡ room }
    ensures { take result line.new ≡ broken_head number figure }
{
    let ground = put_number(line, 0, number as u64);
    put_whole(line, ground, figure)
}

// The number of the ground alone.
fn put_report(line: &mut [u8; LINE], number: u32) -> usize
    requires { length line.old ≡ room }
    ensures { take result line.new ≡ decimal number }
{
    put_number(line, 0, number as u64)
}

// A few of the numbers.
fn put_few(line: &mut [u8; LINE], table: &[f64], k: usize) -> usize
    requires line_len { length line.old ≡ room }
    requires few_in_bounds { k * few ≤ length table.now }
    ensures { take result line.new ≡ numbers_text (few_of k table.now) }
{
    put_numbers(line, 0, few_of(table, k))
}

// How many times a few so many numbers are; the last may be none.
fn few_count(count: usize) -> usize
    ensures { result ≡ few_count count }
{
    count / FEW + 1
}

fn write_broken(rt: &impl Print, number: u32, figure: f64) -> io::Result<()> {
    let mut line = [0u8; LINE];
    let end = put_broken(&mut line, number, figure);
    rt.write_all(written(&line, end))
}

fn write_report(rt: &impl Print, number: u32) -> io::Result<()> {
    let mut line = [0u8; LINE];
    let end = put_report(&mut line, number);
    rt.write_all(written(&line, end))
}

fn write_few(rt: &impl Print, table: &[f64], k: usize) -> io::Result<()>
    requires { k * few ≤ length table.now }
{
    let mut line = [0u8; LINE];
    let end = put_few(&mut line, table, k);
    rt.write_all(written(&line, end))
}

fn write_numbers(rt: &impl Print, table: &[f64]) -> io::Result<()> {
    for k in 0..few_count(table.len()) {
        write_few(rt, table, k)?;
    }
    Ok(())
}

// What a call gave that was lent a table, and all of its numbers after it: of a breaking current, and of a report.
pub(crate) fn print_broken(
    rt: &impl Print,
    number: u32,
    figure: f64,
    lent: &[f64],
) -> io::Result<()> {
    write_broken(rt, number, figure)?;
    write_numbers(rt, lent)?;
    rt.write_all(b"\n")
}

pub(crate) fn print_report(rt: &impl Print, number: u32, lent: &[f64]) -> io::Result<()> {
    write_report(rt, number)?;
    write_numbers(rt, lent)?;
    rt.write_all(b"\n")
}
