// The lister of document 01: the eight least readings of what utterance.bin has, slots or a word graph, under the grammar in
// grammar.bin. It reads both files and prints the numbers that `lines` shows.
#![tactic(auto)]

ghost use Rattle.std.specs.Prelude.{◌≡◌, length};
ghost use Rattle.std.specs.Io.{ReadsAtMost};

use printing::{print, print_end, print_further, print_rows};
use reading_rows::SHOWN_NUMBERS;
use std::io::Read;
use std::rt::Files;
use std::{fs, io};

// What document 01 has the lister take of each file and lend to the listing.
const BLOCK_BYTES: usize = 2048;

const WORK_NUMBERS: usize = 8192;

const OUTPUT_BYTES: usize = 1024;

// The first bytes of a file, as many as there is room for; none of one that cannot be opened. Where reading fails, what was read so far stands in
// `bytes`, and the error is handed up.
fn read_file(rt: &impl Files, path: &str, bytes: &mut [u8]) -> io::Result<usize>
    ensures read { ReadsAtMost result bytes.new }
    ensures same_room { length bytes.new ≡ length bytes.old }
{
    let Ok(mut file) = fs::open(rt, path) else {
        return Ok(0);
    };
    let mut done = 0;
    while done < bytes.len() {
        let n = file.read(&mut bytes[done..])?;
        if n == 0 {
            break;
        }
        done += n;
    }
    Ok(done)
}

fn main(rt: HostRuntime) -> io::Result<()> {
    let mut grammar = [0u8; BLOCK_BYTES];
    let mut utterance = [0u8; BLOCK_BYTES];
    let g = read_file(&rt, "grammar.bin", &mut grammar)?;
    let u = read_file(&rt, "utterance.bin", &mut utterance)?;
    let mut work = [0u32; WORK_NUMBERS];
    let mut out = [0u8; OUTPUT_BYTES];
    let mut shown = [0u32; SHOWN_NUMBERS];
    match lines::lines(
        &grammar[..g],
        &utterance[..u],
        &mut work,
        &mut out,
        &mut shown,
    ) {
        Ok(m) => {
            print(&rt, b"readings")?;
            print_further(&rt, m)?;
            print_end(&rt)?;
            print_rows(&rt, &shown, m)
        }
        Err(refusal) => {
            print(&rt, b"refused")?;
            print_further(&rt, refusal.number() as usize)?;
            print_end(&rt)
        }
    }
}
