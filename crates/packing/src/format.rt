// Document 01's formats, once for readers and writers: ranges, widths and fields of blocks and sheets, and the lengths of the
// flat arrays that hold what was read. A symbol, a word and a rule's number take `bits::width_below` of how many there are.
use crate::Field;
use crate::refusal::Refusal;

// The greatest of each, under the names of include/spireyerba.h.
pub const MAX_SYMBOLS: usize = 32; // S

pub const MAX_WORDS: usize = 200; // W

pub const MAX_RULES: usize = 256; // R

pub const MAX_SLOTS: usize = 24; // n

pub const MAX_CANDIDATES: usize = 7; // of a slot

pub const MAX_PLACES: usize = 25; // P, of a word graph

pub const MAX_EDGES: usize = 96; // of a word graph

pub const MAX_ITEMS: u32 = 6; // of the body of an office's rule

pub const MAX_PATH_EDGES: usize = MAX_PLACES - 1;

pub const MAX_WEIGHT: u32 = 65535; // of a rule, and a word's cost

pub const NOT_HEARD: u32 = MAX_WEIGHT; // the cost of a word that was not heard, and so is not offered

pub const MAX_READING_WEIGHT: u32 = 16777215; // that its field has room for

pub const MAX_RULE_NUMBER: u32 = MAX_RULES as u32 - 1; // of a reading

pub const MAX_PLACE_NUMBER: u32 = 31; // that a place's field has room for

pub const MAX_EDGE_NUMBER: u32 = 127; // that an edge number's field has room for

pub const MAX_SHARE: u32 = 1024; // of a rule, and what shares are of

// The kinds of blocks and of rules.
pub const GRAMMAR_BLOCK: u32 = 1;

pub const UTTERANCE_BLOCK: u32 = 2;

pub const READING_BLOCK: u32 = 3;

pub const MARKED_GRAMMAR_BLOCK: u32 = 4; // a grammar whose rules bear marks

pub const GRAPH_BLOCK: u32 = 5;

pub const GRAPH_READING_BLOCK: u32 = 6;

pub const PAIR_RULE: u32 = 0;

pub const WORD_RULE: u32 = 1;

// Marks: 1 for a helper's rule, 0 otherwise.
pub const UNMARKED: u32 = 0;

pub const MARKED: u32 = 1;

// Widths in bits.
pub const KIND_WIDTH: usize = 4; // a block's kind

pub const SYMBOLS_WIDTH: usize = 6; // S

pub const WORDS_WIDTH: usize = 8; // W

pub const RULES_WIDTH: usize = 9; // R

pub const RULE_KIND_WIDTH: usize = 1;

pub const WEIGHT_WIDTH: usize = 16; // of a rule

pub const MARK_WIDTH: usize = 1;

pub const SLOTS_WIDTH: usize = 6; // n

pub const CANDIDATES_WIDTH: usize = 3; // a slot's count

pub const COST_WIDTH: usize = 16;

pub const READING_WEIGHT_WIDTH: usize = 24;

pub const PLACES_WIDTH: usize = 5; // P

pub const EDGES_WIDTH: usize = 7; // a graph's count

pub const PLACE_WIDTH: usize = 5; // from, to

pub const PATH_EDGES_WIDTH: usize = 6; // n of a graph's reading

pub const EDGE_NUMBER_WIDTH: usize = 7;

// Where the fields at the front of a block stand, one behind the other, and how many bits all of them take.
pub const SYMBOLS_AT: usize = KIND_WIDTH;

pub const WORDS_AT: usize = SYMBOLS_AT + SYMBOLS_WIDTH;

pub const RULES_AT: usize = WORDS_AT + WORDS_WIDTH;

pub const GRAMMAR_HEAD: usize = RULES_AT + RULES_WIDTH;

pub const SLOTS_AT: usize = KIND_WIDTH;

pub const UTTERANCE_HEAD: usize = SLOTS_AT + SLOTS_WIDTH;

pub const READING_WEIGHT_AT: usize = SLOTS_AT + SLOTS_WIDTH;

pub const READING_HEAD: usize = READING_WEIGHT_AT + READING_WEIGHT_WIDTH;

pub const PATH_EDGES_AT: usize = KIND_WIDTH;

pub const PATH_WEIGHT_AT: usize = PATH_EDGES_AT + PATH_EDGES_WIDTH;

pub const GRAPH_READING_HEAD: usize = PATH_WEIGHT_AT + READING_WEIGHT_WIDTH;

// Further sums of widths.
pub const SIZES_WIDTH: usize = SYMBOLS_WIDTH + WORDS_WIDTH + RULES_WIDTH; // S, W and R

pub const RULE_FIXED_WIDTH: usize = RULE_KIND_WIDTH + WEIGHT_WIDTH; // a rule's fields beside its symbols and its word

pub const MAX_RULE_WIDTH: usize = RULE_FIXED_WIDTH + 3 * bits::MAX_WIDTH; // with a head and two numbers of a body

pub const MAX_MARKED_RULE_WIDTH: usize = MAX_RULE_WIDTH + MARK_WIDTH;

// A grammar's sheet has S, W and R, then the numbers of each rule: kind, head, weight, first, second, and a mark where rules bear marks.
pub const GRAMMAR_SHEET_HEAD: usize = 3;

pub const SHEET_RULES_AT: usize = 2; // R

pub const NUMBERS_PER_RULE: usize = 5;

pub const NUMBERS_PER_MARKED_RULE: usize = NUMBERS_PER_RULE + 1;

pub const RULE_HEAD_AT: usize = 1;

pub const RULE_WEIGHT_AT: usize = 2;

pub const RULE_FIRST_AT: usize = 3;

pub const RULE_SECOND_AT: usize = 4;

// An utterance's sheet has n, then of each slot its count and the numbers of its candidates: word, cost.
pub const NUMBERS_PER_CANDIDATE: usize = 2;

pub const SLOT_LENGTH: usize = 1 + MAX_CANDIDATES * NUMBERS_PER_CANDIDATE; // at most

// An edge has four numbers: from, to, word, cost.
pub const NUMBERS_PER_EDGE: usize = 4;

pub const EDGE_TO_AT: usize = 1;

pub const EDGE_WORD_AT: usize = 2;

pub const EDGE_COST_AT: usize = 3;

// The lengths of flat arrays with room for the most there can be.
pub const RULES_LENGTH: usize = MAX_RULES * NUMBERS_PER_RULE; // a grammar's rules

pub const MARKED_RULES_LENGTH: usize = MAX_RULES * NUMBERS_PER_MARKED_RULE; // a grammar's rules with their marks

pub const SLOTS_LENGTH: usize = MAX_SLOTS * SLOT_LENGTH; // an utterance's slots

pub const EDGES_LENGTH: usize = MAX_SLOTS * MAX_CANDIDATES * NUMBERS_PER_EDGE; // an utterance's edges

pub const WALK_LENGTH: usize = 2 * MAX_SLOTS - 1; // a reading's walk

pub const GRAPH_EDGES_LENGTH: usize = MAX_EDGES * NUMBERS_PER_EDGE; // a graph's edges

pub const MAX_NODES: usize = 2 * MAX_PATH_EDGES - 1; // of a graph's derivation

pub const NUMBERS_PER_NODE: usize = 2; // of a trace: the rule's number, and of a word rule the edge's

pub const TRACE_LENGTH: usize = MAX_NODES * NUMBERS_PER_NODE;

// The fields of a grammar that are the same for every grammar: the block's kind, without and with marks, S, W and R; a rule's kind and
// weight, the last number of a word rule, which takes no bits, and a mark.
pub const GRAMMAR_KIND_FIELD: Field = Field {
    width: KIND_WIDTH,
    least: GRAMMAR_BLOCK,
    most: GRAMMAR_BLOCK,
    below: Refusal::GrammarKind,
    above: Refusal::GrammarKind,
};

pub const MARKED_GRAMMAR_KIND_FIELD: Field = Field {
    width: KIND_WIDTH,
    least: MARKED_GRAMMAR_BLOCK,
    most: MARKED_GRAMMAR_BLOCK,
    below: Refusal::GrammarKind,
    above: Refusal::GrammarKind,
};

pub const SYMBOLS_FIELD: Field = Field {
    width: SYMBOLS_WIDTH,
    least: 1,
    most: MAX_SYMBOLS as u32,
    below: Refusal::GrammarRange,
    above: Refusal::GrammarRange,
};

pub const WORDS_FIELD: Field = Field {
    width: WORDS_WIDTH,
    least: 1,
    most: MAX_WORDS as u32,
    below: Refusal::GrammarRange,
    above: Refusal::GrammarRange,
};

pub const RULES_FIELD: Field = Field {
    width: RULES_WIDTH,
    least: 1,
    most: MAX_RULES as u32,
    below: Refusal::GrammarRange,
    above: Refusal::GrammarRange,
};

pub const RULE_KIND_FIELD: Field = Field {
    width: RULE_KIND_WIDTH,
    least: PAIR_RULE,
    most: WORD_RULE,
    below: Refusal::SheetValue,
    above: Refusal::SheetValue,
};

pub const WEIGHT_FIELD: Field = Field {
    width: WEIGHT_WIDTH,
    least: 0,
    most: MAX_WEIGHT,
    below: Refusal::SheetValue,
    above: Refusal::SheetValue,
};

pub const NOTHING_FIELD: Field = Field {
    width: 0,
    least: 0,
    most: 0,
    below: Refusal::SheetValue,
    above: Refusal::SheetValue,
};

pub const MARK_FIELD: Field = Field {
    width: MARK_WIDTH,
    least: UNMARKED,
    most: MARKED,
    below: Refusal::SheetValue,
    above: Refusal::SheetValue,
};

// The fields of an utterance that are the same for every grammar: the block's kind, n, a slot's count, a cost.
pub const UTTERANCE_KIND_FIELD: Field = Field {
    width: KIND_WIDTH,
    least: UTTERANCE_BLOCK,
    most: UTTERANCE_BLOCK,
    below: Refusal::UtteranceKind,
    above: Refusal::UtteranceKind,
};

pub const SLOTS_FIELD: Field = Field {
    width: SLOTS_WIDTH,
    least: 1,
    most: MAX_SLOTS as u32,
    below: Refusal::UtteranceRange,
    above: Refusal::UtteranceRange,
};

pub const CANDIDATES_FIELD: Field = Field {
    width: CANDIDATES_WIDTH,
    least: 1,
    most: MAX_CANDIDATES as u32,
    below: Refusal::UtteranceRange,
    above: Refusal::UtteranceRange,
};

pub const COST_FIELD: Field = Field {
    width: COST_WIDTH,
    least: 0,
    most: MAX_WEIGHT,
    below: Refusal::SheetValue,
    above: Refusal::SheetValue,
};

// The fields of a reading that are the same for every grammar and utterance: the block's kind, the weight.
pub const READING_KIND_FIELD: Field = Field {
    width: KIND_WIDTH,
    least: READING_BLOCK,
    most: READING_BLOCK,
    below: Refusal::ReadingKind,
    above: Refusal::ReadingKind,
};

pub const READING_WEIGHT_FIELD: Field = Field {
    width: READING_WEIGHT_WIDTH,
    least: 0,
    most: MAX_READING_WEIGHT,
    below: Refusal::ReadingWeight,
    above: Refusal::ReadingWeight,
};

// The fields of a graph that are the same for every grammar and graph: the block's kind, P, the number of edges, and the place
// where an edge starts, which has no range of its own.
pub const GRAPH_KIND_FIELD: Field = Field {
    width: KIND_WIDTH,
    least: GRAPH_BLOCK,
    most: GRAPH_BLOCK,
    below: Refusal::UtteranceKind,
    above: Refusal::UtteranceKind,
};

pub const PLACES_FIELD: Field = Field {
    width: PLACES_WIDTH,
    least: 2,
    most: MAX_PLACES as u32,
    below: Refusal::UtteranceRange,
    above: Refusal::UtteranceRange,
};

pub const EDGES_FIELD: Field = Field {
    width: EDGES_WIDTH,
    least: 1,
    most: MAX_EDGES as u32,
    below: Refusal::UtteranceRange,
    above: Refusal::UtteranceRange,
};

pub const START_FIELD: Field = Field {
    width: PLACE_WIDTH,
    least: 0,
    most: MAX_PLACE_NUMBER,
    below: Refusal::EdgePlaces,
    above: Refusal::EdgePlaces,
};

// The fields of a graph's reading that are the same for every grammar and graph: the block's kind, an edge's number.
pub const GRAPH_READING_KIND_FIELD: Field = Field {
    width: KIND_WIDTH,
    least: GRAPH_READING_BLOCK,
    most: GRAPH_READING_BLOCK,
    below: Refusal::ReadingKind,
    above: Refusal::ReadingKind,
};

pub const EDGE_NUMBER_FIELD: Field = Field {
    width: EDGE_NUMBER_WIDTH,
    least: 0,
    most: MAX_EDGE_NUMBER,
    below: Refusal::ReadingWalk,
    above: Refusal::ReadingWalk,
};
