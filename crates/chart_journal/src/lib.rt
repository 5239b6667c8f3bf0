// The journal: entries of the table as they were before they were written, so that they can be put back. It has first how many
// entries are kept, then of each where it starts, in two numbers, and its four numbers. An empty slice keeps nothing.
#![tactic(auto)]

ghost use Rattle.std.specs.Prelude.{◌≡◌, ◌+◌, ◌<◌, length, set};
ghost use Rattle.bits.specs.Width.{u32_values};
ghost use Rattle.chart_journal.specs.Journal.{entry_bound, entry_numbers, write_kept, keep_entry, Below, write_four, keep_four, restore_entry, put_back};

use arrays::{narrow_at, number_at, store};
use bits::U32_VALUES;

// The most entries that are kept.
pub const MOST_KEPT: usize = 188;

// The numbers of a kept entry, and of the journal.
const KEPT_NUMBERS: usize = 6;

pub const JOURNAL_NUMBERS: usize = 1 + KEPT_NUMBERS * MOST_KEPT;

// The entries that finding a rank writes over, which are kept at once.
const AT_ONCE: usize = 4;

// The four numbers of an entry.
#[derive(Clone, Copy)]
struct EntryNumbers {
    first: u32,
    second: u32,
    third: u32,
    fourth: u32,
}

// The numbers of the entry that starts at a place of the table. One test suffices where all four stand in it.
fn numbers_at(t: &[u32], at: usize) -> EntryNumbers
    requires { at < entry_bound }
    ensures { result ≡ entry_numbers t.now at }
{
    if at + 3 < t.len() {
        return EntryNumbers {
            first: t[at],
            second: t[at + 1],
            third: t[at + 2],
            fourth: t[at + 3],
        };
    }
    EntryNumbers {
        first: narrow_at(t, at),
        second: narrow_at(t, at + 1),
        third: narrow_at(t, at + 2),
        fourth: narrow_at(t, at + 3),
    }
}

// Writes where an entry starts and its numbers to a place of the journal that has room for them.
fn write_within(kept: &mut [u32], to: usize, at: usize, entry: EntryNumbers)
    requires { (to + 5 < length kept.old) × (at < entry_bound) }
    ensures { kept.new ≡ write_kept kept.old to at entry }
{
    kept[to] = (at % U32_VALUES) as u32;
    kept[to + 1] = (at / U32_VALUES) as u32;
    kept[to + 2] = entry.first;
    kept[to + 3] = entry.second;
    kept[to + 4] = entry.third;
    kept[to + 5] = entry.fourth;
}

// The same to any place of the journal.
fn write_kept(kept: &mut [u32], to: usize, at: usize, entry: EntryNumbers)
    requires { (to < 65536) × (at < entry_bound) }
    ensures { kept.new ≡ write_kept kept.old to at entry }
{
    if to + KEPT_NUMBERS - 1 < kept.len() {
        write_within(kept, to, at, entry);
        return;
    }
    store(kept, to, (at % U32_VALUES) as u32);
    store(kept, to + 1, (at / U32_VALUES) as u32);
    store(kept, to + 2, entry.first);
    store(kept, to + 3, entry.second);
    store(kept, to + 4, entry.third);
    store(kept, to + 5, entry.fourth);
}

// Keeps the entry that starts at a place of the table.
fn keep_entry(t: &[u32], kept: &mut [u32], at: usize)
    requires { at < entry_bound }
    ensures { kept.new ≡ keep_entry t.now kept.old at }
{
    let n = number_at(&kept[..], 0);
    if n < MOST_KEPT {
        write_kept(kept, 1 + KEPT_NUMBERS * n, at, numbers_at(t, at));
        store(kept, 0, (n + 1) as u32);
    }
}

// The places of four entries.
#[derive(Clone, Copy)]
pub struct Places {
    pub first: usize,
    pub second: usize,
    pub third: usize,
    pub fourth: usize,
}

// Writes the entry that starts at a place of the table to a place of the journal that has room for it.
fn copy_entry(t: &[u32], kept: &mut [u32], to: usize, at: usize)
    requires { (to + 5 < length kept.old) × (at < entry_bound) }
    ensures { kept.new ≡ write_kept kept.old to at (entry_numbers t.now at) }
{
    write_within(kept, to, at, numbers_at(t, at));
}

// Writes four entries, one behind another.
fn copy_four(t: &[u32], kept: &mut [u32], to: usize, at: Places)
    requires { (to + 23 < length kept.old) × (Below at) }
    ensures { kept.new ≡ write_four t.now kept.old to at }
{
    copy_entry(t, kept, to, at.first);
    copy_entry(t, kept, to + KEPT_NUMBERS, at.second);
    copy_entry(t, kept, to + 2 * KEPT_NUMBERS, at.third);
    copy_entry(t, kept, to + 3 * KEPT_NUMBERS, at.fourth);
}

// Keeps the entries that start at four places of the table, one after another.
fn keep_each(t: &[u32], kept: &mut [u32], at: Places)
    requires { Below at }
    ensures { kept.new ≡ keep_four t.now kept.old at }
{
    keep_entry(t, kept, at.first);
    keep_entry(t, kept, at.second);
    keep_entry(t, kept, at.third);
    keep_entry(t, kept, at.fourth);
}

// The same. One test suffices where there is room for all.
pub fn keep_four(t: &[u32], kept: &mut [u32], at: Places)
    requires { Below at }
    ensures { kept.new ≡ keep_four t.now kept.old at }
{
    let n = number_at(&kept[..], 0);
    let to = 1 + KEPT_NUMBERS * n;
    if n + AT_ONCE <= MOST_KEPT && to + KEPT_NUMBERS * AT_ONCE <= kept.len() {
        copy_four(t, kept, to, at);
        store(kept, 0, (n + AT_ONCE) as u32);
        return;
    }
    keep_each(t, kept, at);
}

// Stores a number so many places behind one, and nothing past the end.
fn store_behind(t: &mut [u32], at: usize, behind: usize, x: u32)
    ensures { t.new ≡ set t.old (at + behind) x }
{
    if at < t.len() && behind < t.len() - at {
        t[at + behind] = x;
    }
}

// Puts back the kept entry x.
fn restore_entry(t: &mut [u32], kept: &[u32], x: usize)
    requires { x < u32_values }
    ensures { t.new ≡ restore_entry kept.now x t.old }
{
    let from = 1 + KEPT_NUMBERS * x;
    let at = number_at(kept, from + 1) * U32_VALUES + number_at(kept, from);
    store_behind(t, at, 0, narrow_at(kept, from + 2));
    store_behind(t, at, 1, narrow_at(kept, from + 3));
    store_behind(t, at, 2, narrow_at(kept, from + 4));
    store_behind(t, at, 3, narrow_at(kept, from + 5));
}

// Puts back all kept entries, the last kept first.
pub fn put_back(t: &mut [u32], kept: &[u32])
    ensures { t.new ≡ put_back kept.now t.old }
{
    for x in (0..number_at(kept, 0)).rev() {
        restore_entry(t, kept, x);
    }
}
