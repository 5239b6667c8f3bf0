// What programs print: bytes, numbers, and rows that `lines` shows. Each function answers the error of a write that fails, and no other; what was written
// before it stands.
#![tactic(auto)]

ghost use Rattle.std.specs.Prelude.{◌≤◌};

use arrays::number_at;
use reading_rows::{COUNT_AT, RANK_AT, ROW_NUMBERS, RULES_AT, WEIGHT_AT};
use std::io;

// Bytes as they are.
pub fn print(rt: &impl Print, text: &[u8]) -> io::Result<()> {
    rt.write_all(text)
}

// A number, and one behind others.
pub fn print_number(rt: &impl Print, n: usize) -> io::Result<()> {
    rt.print(n)
}

pub fn print_further(rt: &impl Print, n: usize) -> io::Result<()> {
    print(rt, b" ")?;
    print_number(rt, n)
}

// The end of a line.
pub fn print_end(rt: &impl Print) -> io::Result<()> {
    print(rt, b"\n")
}

// A line: rank, weight, node rule numbers.
fn print_row(rt: &impl Print, row: &[u32]) -> io::Result<()> {
    print_number(rt, number_at(row, RANK_AT))?;
    print_further(rt, number_at(row, WEIGHT_AT))?;
    let count = number_at(row, COUNT_AT);
    for &rule in row.iter().skip(RULES_AT).take(count) {
        print_further(rt, rule as usize)?;
    }
    print_end(rt)
}

// A line for each of the first m rows.
pub fn print_rows(rt: &impl Print, shown: &[u32], m: usize) -> io::Result<()>
    requires { m ≤ 8 }
{
    for row in shown.chunks(ROW_NUMBERS).take(m) {
        print_row(rt, row)?;
    }
    Ok(())
}
