// The auction is written where it stands in the lent bytes: a call writes the parts that it changes, and leaves the rest. What each
// function ensures holds for every auction that the bytes hold before it, so that one write follows another without reading back.
#![tactic(auto)]

ghost use Rattle.std.specs.Prelude.{◌≡◌, ◌+◌, ◌≤◌, ◌<◌, length, get_or, take, replicate};
ghost use Rattle.std.proofs.lemmas.List.Edits.{sets};
ghost use Rattle.rules.specs.declared.Auction.{Auction};
ghost use Rattle.rules.specs.Parts.{tranches_at, lane_at, seat_at, no_row, with_phase, with_round, with_prices, with_marks, unmarked, with_limits, with_free, with_records};
ghost use Rattle.rules.specs.Calls.{opened};
ghost use Rattle.rules.specs.Layout.{state_length, product_width, bidder_width, row_width, lot_width, lots_width, record_width, line_width, products_from, bidders_from, rows_from, byte1, bytes2, bytes3, head_bytes, lane_bytes, seat_bytes, row_bytes, lot_bytes, lots_bytes, record_bytes, line_bytes, stored, loaded};
ghost use Rattle.book.specs.Lent.{Long};
ghost use Rattle.table.specs.Rows.{places_in};
ghost use Rattle.storing.specs.Written.{Writes, with_filed, with_slot, without_lines, amount_at, records_in, each};

use rules::{Decrements, Line, Lot, Lots, Quote, Record, Setup, Tranches};

// The phase; and what is lent is bytes, so that they are those of the auction in them.
pub fn as_stored(s: &[u8]) -> u8
    requires { Long s.now }
    ensures { (result ≡ (loaded s.now).phase) × (s.now ≡ stored (loaded s.now)) }
{
    s[layout::PHASE]
}

// ---- Numbers, most significant byte first

// A number of eight bits fits its byte.
fn byte(s: &mut [u8], k: usize, x: u8)
    requires { k + 1 ≤ length s.old }
    ensures { s.new ≡ sets s.old k (byte1 x) }
{
    s[k] = x;
}

fn one(s: &mut [u8], k: usize, x: u16)
    requires { k + 1 ≤ length s.old }
    ensures { s.new ≡ sets s.old k (byte1 x) }
{
    s[k] = (x % 256) as u8;
}

fn two(s: &mut [u8], k: usize, x: u16)
    requires { k + 2 ≤ length s.old }
    ensures { s.new ≡ sets s.old k (bytes2 x) }
{
    s[k] = (x / 256 % 256) as u8;
    s[k + 1] = (x % 256) as u8;
}

fn three(s: &mut [u8], k: usize, x: u32)
    requires { k + 3 ≤ length s.old }
    ensures { s.new ≡ sets s.old k (bytes3 x) }
{
    s[k] = (x / 65536 % 256) as u8;
    s[k + 1] = (x / 256 % 256) as u8;
    s[k + 2] = (x % 256) as u8;
}

fn lot(s: &mut [u8], k: usize, l: Lot)
    requires { k + lot_width ≤ length s.old }
    ensures { s.new ≡ sets s.old k (lot_bytes l) }
{
    one(s, k, l.count.0);
    three(s, k + 1, l.exit);
}

fn lots(s: &mut [u8], k: usize, l: Lots)
    requires { k + lots_width ≤ length s.old }
    ensures { s.new ≡ sets s.old k (lots_bytes l) }
{
    lot(s, k, l.one);
    lot(s, k + layout::LOT, l.two);
    lot(s, k + 2 * layout::LOT, l.three);
    lot(s, k + 3 * layout::LOT, l.four);
}

fn record(s: &mut [u8], k: usize, r: Record)
    requires { k + record_width ≤ length s.old }
    ensures { s.new ≡ sets s.old k (record_bytes r) }
{
    one(s, k, r.going.0);
    one(s, k + 1, r.denied.0);
    lots(s, k + 2, r.retained);
}

fn line(s: &mut [u8], k: usize, l: Line)
    requires { k + line_width ≤ length s.old }
    ensures { s.new ≡ sets s.old k (line_bytes l) }
{
    one(s, k, l.tranches.0);
    lots(s, k + 1, l.withdrawn);
    byte(s, k + 1 + layout::LOTS, l.priority);
}

// ---- The head

pub fn phase(s: &mut [u8], x: u8)
    requires { Long s.old }
    ensures { Writes s.old s.new (λ a. with_phase a x) }
{
    byte(s, layout::PHASE, x);
}

pub fn round(s: &mut [u8], x: u16)
    requires { Long s.old }
    ensures { Writes s.old s.new (λ a. with_round a x) }
{
    two(s, layout::ROUND, x);
}

// "A bitmap marks who has filed."
pub fn filed(s: &mut [u8], x: u32)
    requires { Long s.old }
    ensures { Writes s.old s.new (λ a. with_filed a x) }
{
    s[layout::FILED] = (x / 16777216 % 256) as u8;
    s[layout::FILED + 1] = (x / 65536 % 256) as u8;
    s[layout::FILED + 2] = (x / 256 % 256) as u8;
    s[layout::FILED + 3] = (x % 256) as u8;
}

// ---- The lines

// A bidder's eight lines.
pub fn slot(s: &mut [u8], b: usize, lines: [Line; 8])
    requires { Long s.old × (b < 32) }
    ensures { (a : Auction) → length a.cards.lines ≡ 256 → s.old ≡ stored a → s.new ≡ stored (with_slot a b lines) }
{
    let from = b * 8 * layout::LINE + layout::BIDS;
    for p in 0..8 {
        let l = lines[p];
        line(s, p * layout::LINE + from, l);
    }
}

pub fn no_lines(s: &mut [u8])
    requires { Long s.old }
    ensures { Writes s.old s.new (λ a. without_lines a) }
{
    for k in 0..256 {
        let l = Line::none();
        line(s, k * layout::LINE + layout::BIDS, l);
    }
}

// ---- The bidders and the products

// The free eligibility of every bidder.
pub fn free(s: &mut [u8], free: [Tranches; 32])
    requires { Long s.old }
    ensures { Writes s.old s.new (λ a. with_free a (tranches_at free)) }
{
    for b in 0..32 {
        let f = free[b];
        two(s, b * layout::SEAT + layout::FREE, f.0);
    }
}

// The going price of every product, and the price before its latest fall.
pub fn prices(s: &mut [u8], price: [Quote; 8], before: [Quote; 8])
    requires { Long s.old }
    ensures { Writes s.old s.new (λ a. with_prices a (amount_at price) (amount_at before)) }
{
    for p in 0..8 {
        let x = price[p];
        let y = before[p];
        let going = x.price;
        let last = y.price;
        three(s, p * layout::LANE + layout::PRICE, going.amount());
        three(s, p * layout::LANE + layout::BEFORE, last.amount());
    }
}

// The mark of every product: 1 where its going price was overridden.
pub fn marks(s: &mut [u8], marks: [u8; 8])
    requires { Long s.old }
    ensures { Writes s.old s.new (λ a. with_marks a (λ p. get_or marks p 0)) }
{
    for p in 0..8 {
        byte(s, p * layout::LANE + layout::MARK, marks[p]);
    }
}

// No product has one.
pub fn no_marks(s: &mut [u8])
    requires { Long s.old }
    ensures { Writes s.old s.new (λ a. unmarked a) }
{
    marks(s, [0u8; 8]);
}

// The revised targets and caps.
pub fn limits(s: &mut [u8], targets: [Tranches; 8], caps: [Tranches; 8])
    requires { Long s.old }
    ensures { Writes s.old s.new (λ a. with_limits a (tranches_at targets) (tranches_at caps)) }
{
    for p in 0..8 {
        let x = targets[p];
        let y = caps[p];
        one(s, p * layout::LANE + layout::TARGET, x.0);
        one(s, p * layout::LANE + layout::CAP, y.0);
    }
}

// ---- The records

// Those of a round that is calculated, from its table.
pub fn records(s: &mut [u8], ps: &[[u32; table::WIDTH]; 256])
    requires { Long s.old }
    ensures { Writes s.old s.new (λ a. with_records a (records_in (places_in ps.now))) }
{
    for k in 0..256 {
        let r = table::record(ps, k);
        record(s, k * layout::RECORD + layout::RECORDS, r);
    }
}

// ---- An auction opened

// What stands before the bitmap, which is zero as issued.
fn head(s: &mut [u8], t: Setup)
    requires { Long s.old }
    ensures { (s.new ≡ sets s.old 0 (take 9 (head_bytes (opened t)))) × Long s.new }
{
    byte(s, layout::PHASE, rules::OPEN);
    byte(s, layout::UNIT, t.terms.unit);
    byte(s, layout::PRODUCTS, t.terms.products);
    byte(s, layout::BIDDERS, t.terms.bidders);
    byte(s, layout::ROWS, t.decrements.rows);
    two(s, layout::ROUND, 1);
    two(s, layout::STATEWIDE, t.terms.statewide.0);
}

// Both prices are the starting price, which nobody overrode.
fn products(s: &mut [u8], t: Setup)
    requires { Long s.old }
    ensures { s.new ≡ each (λ p. lane_bytes (lane_at (opened t) p)) products_from product_width 8 s.old }
{
    for p in 0..8 {
        let v = t.item[p];
        let from = p * layout::LANE + layout::TARGET;
        one(s, from, v.target.0);
        one(s, from + 1, v.cap.0);
        three(s, from + 2, v.start);
        three(s, from + 5, v.start);
        three(s, from + 8, v.start);
        byte(s, from + 11, 0);
    }
}

// "f is the initial eligibility."
fn bidders(s: &mut [u8], t: Setup)
    requires { Long s.old }
    ensures { s.new ≡ each (λ b. seat_bytes (seat_at (opened t) b)) bidders_from bidder_width 32 s.old }
{
    for b in 0..32 {
        let e = t.eligibility[b];
        let from = b * layout::SEAT + layout::INITIAL;
        two(s, from, e.0);
        two(s, from + 2, e.0);
    }
}

fn rows(s: &mut [u8], d: Decrements)
    requires { Long s.old }
    ensures { s.new ≡ each (λ i. row_bytes (get_or d.row i no_row)) rows_from row_width 8 s.old }
{
    for i in 0..8 {
        let v = d.row[i];
        let from = i * layout::ROW + layout::PERCENT;
        two(s, from, v.percent);
        two(s, from + 2, v.decrement.0);
    }
}

// The records and the lines are zero as issued.
pub fn opened(s: &mut [u8], t: Setup)
    requires { s.old ≡ replicate state_length 0 }
    ensures { s.new ≡ stored (opened t) }
{
    head(s, t);
    products(s, t);
    bidders(s, t);
    let d = t.decrements;
    rows(s, d);
}
