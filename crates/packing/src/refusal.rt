// The refusals of document 01's table "Where each check stands" and of document 02, each with its number there, under the names that
// include/spireyerba.h has for them.
#![tactic(auto)]

ghost use Rattle.std.specs.Prelude.{◌≡◌, ◌≤◌};
ghost use Rattle.packing.specs.Refusal.{number, most};

#[derive(Clone, Copy, Debug, PartialEq, Eq)]
pub enum Refusal {
    // Of a grammar.
    GrammarEnd = 1, // a field passes the end of the block
    GrammarKind = 2, // the block's kind
    GrammarRange = 3, // S, W or R out of range
    GrammarSymbol = 4, // a symbol not below S
    GrammarWord = 5, // a word not below W
    GrammarRepeat = 6, // kind, head and body equal an earlier rule's
    GrammarFill = 7, // nonzero fill or further bytes

    // Of an utterance.
    UtteranceEnd = 11, // a field passes the end of the block
    UtteranceKind = 12, // the block's kind
    UtteranceRange = 13, // n or a count out of range
    UtteranceWord = 14, // a word not below W
    UtteranceOrder = 15, // a word not above the one before it in its slot
    UtteranceFill = 16, // nonzero fill or further bytes

    // Of the listing.
    ListingWanted = 21, // N out of range
    ListingWork = 22, // work table short
    ListingOutput = 23, // output short

    // Of the specimen.
    SpecimenLength = 25, // length out of range
    SpecimenOutput = 26, // output shorter than the length

    // Of a reading.
    ReadingEnd = 31, // a field passes the end of the block
    ReadingKind = 32, // the block's kind
    ReadingSlots = 33, // n not the utterance's
    ReadingWalk = 34, // the numbers are not the walk of a derivation
    ReadingWeight = 35, // weight not its own
    ReadingFill = 36, // nonzero fill or further bytes

    // Of a sheet, and of the output of a conversion.
    SheetCount = 41, // numbers missing or left over
    SheetValue = 42, // kind, weight, cost, last number or mark out of range
    OutputShort = 43, // shorter than the result

    // Of an edge of a word graph.
    EdgePlaces = 51, // from not below to, or to not below P
    EdgeRepeat = 52, // from, to and word equal an earlier edge's

    // Of an open listing.
    OpenAltered = 53, // the walk that altered numbers spell is not a reading that passes

    // Of an office sheet.
    ItemCount = 54, // items of a body outside 1 to 6
    ItemAlone = 55, // a body of one symbol
    OfficeSize = 56, // the result passes 32 symbols or 256 rules

    // Of the panel's listing.
    PanelSlots = 57, // more slots, or places, than the panel takes
    PanelWanted = 58, // N above what the panel lists

    // Of costs known within ranges.
    CostRanges = 59, // other than costs differs, a cost falls, or 65,535 stands in one only

    // Of the shares of a grammar's rules.
    SharesCount = 60, // their number is not R
    ShareRange = 61, // a share out of range
}

impl Refusal {
    // The number that document 01 has for it.
    pub fn number(self) -> u32
        ensures { (result ≡ number self) × (result ≤ most) }
    {
        self as u32
    }
}
