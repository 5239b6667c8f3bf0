// The limits of the library and of the panel, and what is refused of a listing that is beyond them or short of memory.
#![tactic(auto)]

ghost use Rattle.std.specs.Prelude.{◌≡◌, ◌≤◌};
ghost use Rattle.packing.specs.Read.{as_verdict};
ghost use Rattle.packing.specs.GraphReading.{graph_reading_length};
ghost use Rattle.listing_limits.specs.Shortage.{verdict_on, shortage};

use chart_table::MOST_RANKS;
use packing::format::{MAX_RULES, MAX_SLOTS, MAX_SYMBOLS};
use packing::refusal::Refusal;

// The most slots that a service takes, of a graph one less than its places, and the most readings that it lists.
#[derive(Clone, Copy)]
pub struct Limits {
    pub slots: usize,
    pub readings: u32,
}

// The most readings that can be asked for: as many as ranks are kept.
const MAX_WANTED: u32 = MOST_RANKS as u32;

// The library's limits, and the panel's.
pub const LIBRARY: Limits = Limits {
    slots: MAX_SLOTS,
    readings: MAX_WANTED,
};

pub const PANEL: Limits = Limits {
    slots: 12,
    readings: 16,
};

// What is asked for: so many readings, within these limits.
#[derive(Clone, Copy)]
pub struct Asked {
    pub limits: Limits,
    pub wanted: u32,
}

// The refusal of what was heard, up to the last place n, and of what is asked for or lent, unless all is within the limits and nothing short.
#[tactic(auto, unfolding(crate::specs::Shortage::shortage))]
pub fn shortage(
    asked: Asked,
    symbols: usize,
    n: usize,
    size: usize,
    work: usize,
    out: usize,
) -> Result<(), Refusal>
    requires { (symbols ≤ MAX_SYMBOLS) × (n ≤ MAX_SLOTS) × (size ≤ graph_reading_length MAX_SLOTS MAX_RULES) }
    ensures { as_verdict result ≡ verdict_on (shortage asked symbols n size work out) }
{
    let wanted = asked.wanted;
    if asked.limits.slots < n {
        return Err(Refusal::PanelSlots);
    }
    if wanted < 1 {
        return Err(Refusal::ListingWanted);
    }
    if MAX_WANTED < wanted {
        return Err(Refusal::ListingWanted);
    }
    if asked.limits.readings < wanted {
        return Err(Refusal::PanelWanted);
    }
    let ranks = wanted as usize;
    if work < chart::table_numbers(chart::lay_out(symbols, n, ranks)) {
        return Err(Refusal::ListingWork);
    }
    if out < ranks * size {
        return Err(Refusal::ListingOutput);
    }
    Ok(())
}
