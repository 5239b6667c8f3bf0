// The checked examples of document 01 that are not marked P, of G and U with N = 8: 320 numbers of work table are enough, 319
// are not; 48 bytes of output are enough, 47 are not; other N; another G. Where a case is not about them, both are longer.
// Then those of the panel (document 02, N8), of G with slots and with word graphs, and the lister's lines (N1, N5) of a graph and of grammars
// of kind 4; 400 numbers are enough for its rows, 399 are not.
#![tactic(auto)]

ghost use Rattle.std.specs.Prelude.{◌≤◌};

use listing::listing_within;
use listing_limits::PANEL;
use packing::refusal::Refusal;
use printing::{print, print_end, print_number, print_rows};
use reading_rows::SHOWN_NUMBERS;
use std::io;

fn print_answer(rt: &impl Print, name: &[u8], answer: Result<usize, Refusal>) -> io::Result<()> {
    print(rt, name)?;
    match answer {
        Ok(m) => {
            print(rt, b": readings ")?;
            print_number(rt, m)?;
            print_end(rt)
        }
        Err(refusal) => {
            print(rt, b": refused ")?;
            print_number(rt, refusal.number() as usize)?;
            print_end(rt)
        }
    }
}

// A line for the listing of U under G with this last byte, lent so many numbers and bytes, which are full of noise.
fn run(
    rt: &impl Print,
    name: &[u8],
    last: u8,
    wanted: u32,
    numbers: usize,
    bytes: usize,
) -> io::Result<()>
    requires { (numbers ≤ 321) × (bytes ≤ 49) }
{
    let g = [16, 64, 64, 64, 0, 9, 0, 0, last];
    let u = [33u8, 8, 0, 0, 128, 0, 8, 0, 0, 128, 0, 0];
    let mut work = [12345u32; 321];
    let mut out = [123u8; 49];
    let answer = listing::listing(&g, &u, wanted, &mut work[..numbers], &mut out[..bytes]);
    print_answer(rt, name, answer)
}

// A line for the panel's listing of what was heard under G, lent so many numbers and bytes, which are full of noise.
fn run_panel(
    rt: &impl Print,
    name: &[u8],
    heard: &[u8],
    wanted: u32,
    numbers: usize,
    bytes: usize,
) -> io::Result<()>
    requires { (numbers ≤ 4993) × (bytes ≤ 289) }
{
    let g = [16u8, 64, 64, 64, 0, 9, 0, 0, 0];
    let mut work = [12345u32; 4993];
    let mut out = [123u8; 289];
    let answer = listing_within(
        PANEL,
        &g,
        heard,
        wanted,
        &mut work[..numbers],
        &mut out[..bytes],
    );
    print_answer(rt, name, answer)
}

// The same of twelve slots of word 0 at cost 0, and of thirteen.
fn run_twelve(
    rt: &impl Print,
    name: &[u8],
    wanted: u32,
    numbers: usize,
    bytes: usize,
) -> io::Result<()>
    requires { (numbers ≤ 4993) × (bytes ≤ 289) }
{
    let twelve =
        b"\x23\x08\x00\x00\x80\x00\x08\x00\x00\x80\x00\x08\x00\x00\x80\x00\x08\x00\x00\x80\x00\x08\x00\x00\x80\x00\x08\x00\x00\x80\x00\x00";
    run_panel(rt, name, twelve, wanted, numbers, bytes)
}

fn run_thirteen(rt: &impl Print, name: &[u8], wanted: u32) -> io::Result<()> {
    let thirteen =
        b"\x23\x48\x00\x00\x80\x00\x08\x00\x00\x80\x00\x08\x00\x00\x80\x00\x08\x00\x00\x80\x00\x08\x00\x00\x80\x00\x08\x00\x00\x80\x00\x08\x00\x00";
    run_panel(rt, name, thirteen, wanted, 4993, 289)
}

// The same of thirteen places with word 0 at cost 0 over each step, and of fourteen.
fn run_places(rt: &impl Print) -> io::Result<()> {
    let thirteen =
        b"\x56\x8c\x00\x40\x00\x01\x10\x00\x00\x43\x00\x00\x0c\x80\x00\x02\x14\x00\x00\x53\x00\x00\x0c\x70\x00\x01\xd0\x00\x00\x42\x40\x00\x09\x50\x00\x01\x4b\x00\x00\x2d\x80\x00\x00";
    let fourteen =
        b"\x57\x0d\x00\x40\x00\x01\x10\x00\x00\x43\x00\x00\x0c\x80\x00\x02\x14\x00\x00\x53\x00\x00\x0c\x70\x00\x01\xd0\x00\x00\x42\x40\x00\x09\x50\x00\x01\x4b\x00\x00\x2d\x80\x00\x06\x34\x00\x00";
    run_panel(rt, b"13 places, N 16", thirteen, 16, 4992, 288)?;
    run_panel(rt, b"14 places, N 16", fourteen, 16, 4993, 289)
}

// The lister's lines of what was heard under a grammar, with a table, an output and rows full of noise.
fn run_lines(rt: &impl Print, name: &[u8], grammar: &[u8], heard: &[u8]) -> io::Result<()> {
    let mut work = [12345u32; 8192];
    let mut out = [123u8; 1024];
    let mut shown = [12345u32; SHOWN_NUMBERS];
    let answer = lines::lines(grammar, heard, &mut work, &mut out, &mut shown);
    print_answer(rt, name, answer)?;
    if let Ok(m) = answer {
        print_rows(rt, &shown, m)?;
    }
    Ok(())
}

// G with marks 0 and 1, of U and of U redrawn as a graph; G, of that graph; an office's grammar, of slots; and slots that are refused.
fn run_marked(rt: &impl Print) -> io::Result<()> {
    let g = [16u8, 64, 64, 64, 0, 9, 0, 0, 0];
    let marked = [64u8, 64, 64, 64, 0, 8, 128, 0, 16];
    let slots = [33u8, 8, 0, 0, 128, 0, 8, 0, 0, 128, 0, 0];
    let graph = [82u8, 132, 0, 64, 0, 1, 16, 0, 0, 67, 0, 0, 12, 128, 0, 0];
    let office =
        b"\x42\x41\x01\x60\x00\x05\x24\x44\x00\x05\x04\x00\x09\x58\x00\x00\x72\x74\x80\x00\x0c\xc0\x00\x29\x00\x00\x04\xf5\x00\x00\xf6\x00\x00\x67\x00\x00\x18\xa0\x00\x00\xce";
    let said = b"\x21\x08\x00\x08\x90\x00\x9c\x00\x31\x20\x01\x30\x00\x39\x80\x01\xc0";
    run_lines(rt, b"G, graph", &g, &graph)?;
    run_lines(rt, b"G with marks, slots", &marked, &slots)?;
    run_lines(rt, b"G with marks, graph", &marked, &graph)?;
    run_lines(rt, b"an office's grammar, slots", office, said)?;
    run_lines(rt, b"G with marks, no slots", &marked, &g)
}

// A line for the lister's rows of U under G, lent so many numbers for them, which are full of noise.
fn run_rows(rt: &impl Print, name: &[u8], numbers: usize) -> io::Result<()>
    requires { numbers ≤ SHOWN_NUMBERS }
{
    let g = [16u8, 64, 64, 64, 0, 9, 0, 0, 0];
    let u = [33u8, 8, 0, 0, 128, 0, 8, 0, 0, 128, 0, 0];
    let mut work = [12345u32; 321];
    let mut out = [123u8; 49];
    let mut shown = [12345u32; SHOWN_NUMBERS];
    let answer = lines::lines(&g, &u, &mut work, &mut out, &mut shown[..numbers]);
    print_answer(rt, name, answer)
}

fn main(rt: HostRuntime) -> io::Result<()> {
    run(&rt, b"work 320", 0, 8, 320, 49)?;
    run(&rt, b"work 319", 0, 8, 319, 49)?;
    run(&rt, b"output 48", 0, 8, 321, 48)?;
    run(&rt, b"output 47", 0, 8, 321, 47)?;
    run(&rt, b"N 0", 0, 0, 321, 49)?;
    run(&rt, b"N 257", 0, 257, 321, 49)?;
    run(&rt, b"G ending in 01", 1, 8, 321, 49)?;
    run_twelve(&rt, b"12 slots, N 16, work 4992", 16, 4992, 289)?;
    run_twelve(&rt, b"12 slots, N 16, work 4991", 16, 4991, 289)?;
    run_twelve(&rt, b"12 slots, N 16, output 128", 16, 4993, 128)?;
    run_twelve(&rt, b"12 slots, N 16, output 127", 16, 4993, 127)?;
    run_twelve(&rt, b"12 slots, N 17", 17, 4993, 289)?;
    run_twelve(&rt, b"12 slots, N 256", 256, 4993, 289)?;
    run_twelve(&rt, b"12 slots, N 0", 0, 4993, 289)?;
    run_twelve(&rt, b"12 slots, N 257", 257, 4993, 289)?;
    run_thirteen(&rt, b"13 slots, N 16", 16)?;
    run_thirteen(&rt, b"13 slots, N 0", 0)?;
    run_thirteen(&rt, b"13 slots, N 300", 300)?;
    run_places(&rt)?;
    run_marked(&rt)?;
    run_rows(&rt, b"rows 400", 400)?;
    run_rows(&rt, b"rows 399", 399)
}
