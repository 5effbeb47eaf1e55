// Where each number of the state stands in its bytes: every place follows from the one before it and that one's width, so that a new
// field is one line here. The definitions say the same in the crate rules, specs/Layout.antt; whatever reads or writes the bytes is
// proved against those.
#![tactic(auto)]

// ---- The head

pub const PHASE: usize = 0;

pub const UNIT: usize = PHASE + 1;

pub const PRODUCTS: usize = UNIT + 1;

pub const BIDDERS: usize = PRODUCTS + 1;

pub const ROWS: usize = BIDDERS + 1;

pub const ROUND: usize = ROWS + 1;

pub const STATEWIDE: usize = ROUND + 2;

pub const FILED: usize = STATEWIDE + 2;

// ---- 8 products, of the first its fields: p products on each is LANE times p further

pub const TARGET: usize = FILED + 4;

pub const CAP: usize = TARGET + 1;

pub const START: usize = CAP + 1;

pub const PRICE: usize = START + 3;

pub const BEFORE: usize = PRICE + 3;

pub const MARK: usize = BEFORE + 3;

pub const LANE: usize = MARK + 1 - TARGET;

// ---- 32 bidders

pub const INITIAL: usize = TARGET + 8 * LANE;

pub const FREE: usize = INITIAL + 2;

pub const SEAT: usize = FREE + 2 - INITIAL;

// ---- 8 decrement rows

pub const PERCENT: usize = INITIAL + 32 * SEAT;

pub const DECREMENT: usize = PERCENT + 2;

pub const ROW: usize = DECREMENT + 2 - PERCENT;

// ---- Lots: a count and the exit price; four of them

pub const LOT: usize = 1 + 3;

pub const LOTS: usize = 4 * LOT;

// ---- 256 records: g, d, and the lots retained

pub const RECORDS: usize = PERCENT + 8 * ROW;

pub const RECORD: usize = 1 + 1 + LOTS;

// ---- 256 bid lines: tranches, the lots withdrawn, and the priority

pub const BIDS: usize = RECORDS + 256 * RECORD;

pub const LINE: usize = 1 + LOTS + 1;

// The state's length.
pub const STATE: usize = BIDS + 256 * LINE;
