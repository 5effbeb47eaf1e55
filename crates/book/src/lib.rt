// The lent bytes are the book: each number of the auction is read where it stands, and no copy is made of the rest. What a getter gives is
// the same field of `loaded`, the definition of the auction in the bytes.
#![tactic(auto)]

ghost use Rattle.std.specs.Prelude.{◌≡◌, ◌+◌, ◌≤◌, ◌<◌, length, get_or};
ghost use Rattle.rules.specs.Units.{price_of, amount_of};
ghost use Rattle.rules.specs.Card.{no_line};
ghost use Rattle.rules.specs.Settings.{setup, target_of, cap_of, start_of, initial_of, percent_of, decrement_of};
ghost use Rattle.rules.specs.Held.{held_in, record_at, free_of};
ghost use Rattle.rules.specs.Bid.{price_at, before_at, mark_at, has_filed};
ghost use Rattle.rules.specs.Layout.{lot_width, lots_width, read1, read2, read3, lot_read, lots_read, loaded};
ghost use Rattle.book.specs.Lent.{Long};

use rules::{
    BasisPoints, Decrements, Item, Line, Lot, Lots, Price, Record, Row, Setup, Terms, Tranches,
};
use std::array;

// ---- Numbers, most significant byte first

fn byte(s: &[u8], k: usize) -> u32
    requires { k + 1 ≤ length s.now }
    ensures { (result ≡ read1 s.now k) × (result < 256) }
{
    s[k] as u32
}

fn two(s: &[u8], k: usize) -> u16
    requires { k + 2 ≤ length s.now }
    ensures { result ≡ read2 s.now k }
{
    (byte(s, k) * 256 + byte(s, k + 1)) as u16
}

fn three(s: &[u8], k: usize) -> u32
    requires { k + 3 ≤ length s.now }
    ensures { result ≡ read3 s.now k }
{
    byte(s, k) * 65536 + byte(s, k + 1) * 256 + byte(s, k + 2)
}

// ---- The head

pub fn phase(s: &[u8]) -> u8
    requires { Long s.now }
    ensures { result ≡ (loaded s.now).phase }
{
    s[layout::PHASE]
}

pub fn unit(s: &[u8]) -> u8
    requires { Long s.now }
    ensures { result ≡ (loaded s.now).terms.unit }
{
    s[layout::UNIT]
}

pub fn products(s: &[u8]) -> usize
    requires { Long s.now }
    ensures { (result ≡ (loaded s.now).terms.products) × (result ≤ 255) }
{
    byte(s, layout::PRODUCTS) as usize
}

pub fn bidders(s: &[u8]) -> usize
    requires { Long s.now }
    ensures { (result ≡ (loaded s.now).terms.bidders) × (result ≤ 255) }
{
    byte(s, layout::BIDDERS) as usize
}

pub fn rows(s: &[u8]) -> usize
    requires { Long s.now }
    ensures { (result ≡ (loaded s.now).decrements.rows) × (result ≤ 255) }
{
    byte(s, layout::ROWS) as usize
}

pub fn round(s: &[u8]) -> u16
    requires { Long s.now }
    ensures { result ≡ (loaded s.now).round }
{
    two(s, layout::ROUND)
}

pub fn statewide(s: &[u8]) -> Tranches
    requires { Long s.now }
    ensures { result.0 ≡ (loaded s.now).terms.statewide.0 }
{
    Tranches(two(s, layout::STATEWIDE))
}

// "A bitmap marks who has filed."
pub fn filed(s: &[u8]) -> u32
    requires { Long s.now }
    ensures { result ≡ (loaded s.now).cards.filed }
{
    let k = layout::FILED;
    byte(s, k) * 16777216 + byte(s, k + 1) * 65536 + byte(s, k + 2) * 256 + byte(s, k + 3)
}

pub fn has_filed(s: &[u8], b: usize) -> bool
    requires { Long s.now × (b < 32) }
    ensures { result ≡ has_filed (loaded s.now) b }
{
    (filed(s) >> b) & 1 == 1
}

// ---- One product

pub fn target(s: &[u8], p: usize) -> Tranches
    requires { Long s.now × (p < 8) }
    ensures { result.0 ≡ target_of (setup (loaded s.now)) p }
{
    Tranches(byte(s, p * layout::LANE + layout::TARGET) as u16)
}

pub fn cap(s: &[u8], p: usize) -> Tranches
    requires { Long s.now × (p < 8) }
    ensures { result.0 ≡ cap_of (setup (loaded s.now)) p }
{
    Tranches(byte(s, p * layout::LANE + layout::CAP) as u16)
}

// The starting price, in the auction's unit.
pub fn start(s: &[u8], p: usize) -> Price
    requires { Long s.now × (p < 8) }
    ensures { (result ≡ price_of (loaded s.now).terms.unit (start_of (setup (loaded s.now)) p)) × (amount_of result ≡ start_of (setup (loaded s.now)) p) }
{
    Price::of(unit(s), three(s, p * layout::LANE + layout::START))
}

// The going price.
pub fn price(s: &[u8], p: usize) -> Price
    requires { Long s.now × (p < 8) }
    ensures { (result ≡ price_of (loaded s.now).terms.unit (price_at (loaded s.now) p)) × (amount_of result ≡ price_at (loaded s.now) p) }
{
    Price::of(unit(s), three(s, p * layout::LANE + layout::PRICE))
}

// The price before its latest fall.
pub fn before(s: &[u8], p: usize) -> Price
    requires { Long s.now × (p < 8) }
    ensures { (result ≡ price_of (loaded s.now).terms.unit (before_at (loaded s.now) p)) × (amount_of result ≡ before_at (loaded s.now) p) }
{
    Price::of(unit(s), three(s, p * layout::LANE + layout::BEFORE))
}

// 1 where the going price was overridden, else 0.
pub fn mark(s: &[u8], p: usize) -> u8
    requires { Long s.now × (p < 8) }
    ensures { result ≡ mark_at (loaded s.now) p }
{
    s[p * layout::LANE + layout::MARK]
}

// ---- One bidder

// Its initial eligibility.
pub fn initial(s: &[u8], b: usize) -> Tranches
    requires { Long s.now × (b < 32) }
    ensures { result.0 ≡ initial_of (setup (loaded s.now)) b }
{
    Tranches(two(s, b * layout::SEAT + layout::INITIAL))
}

// Its free eligibility, f.
pub fn free(s: &[u8], b: usize) -> Tranches
    requires { Long s.now × (b < 32) }
    ensures { result.0 ≡ free_of (loaded s.now) b }
{
    Tranches(two(s, b * layout::SEAT + layout::FREE))
}

// ---- A decrement row, a record, a bid line

pub fn row(s: &[u8], i: usize) -> Row
    requires { Long s.now × (i < 8) }
    ensures { (result.percent ≡ percent_of (loaded s.now).decrements i) × (result.decrement.0 ≡ decrement_of (loaded s.now).decrements i) }
{
    let percent = two(s, i * layout::ROW + layout::PERCENT);
    let decrement = BasisPoints(two(s, i * layout::ROW + layout::DECREMENT));
    Row { percent, decrement }
}

fn lot(s: &[u8], at: usize) -> Lot
    requires { at + lot_width ≤ length s.now }
    ensures { result ≡ lot_read s.now at }
{
    let count = Tranches(byte(s, at) as u16);
    let exit = three(s, at + 1);
    Lot { count, exit }
}

fn lots(s: &[u8], at: usize) -> Lots
    requires { at + lots_width ≤ length s.now }
    ensures { result ≡ lots_read s.now at }
{
    Lots {
        one: lot(s, at),
        two: lot(s, at + layout::LOT),
        three: lot(s, at + 2 * layout::LOT),
        four: lot(s, at + 3 * layout::LOT),
    }
}

// The record of bidder b on product p, where k is b * 8 + p.
pub fn record(s: &[u8], k: usize) -> Record
    requires { Long s.now × (k < 256) }
    ensures { result ≡ record_at (loaded s.now).records k }
{
    let at = k * layout::RECORD + layout::RECORDS;
    let going = Tranches(byte(s, at) as u16);
    let denied = Tranches(byte(s, at + 1) as u16);
    let retained = lots(s, at + 2);
    Record {
        going,
        denied,
        retained,
    }
}

// What bidder b holds of product p: g + d + r.
pub fn held(s: &[u8], k: usize) -> Tranches
    requires { Long s.now × (k < 256) }
    ensures { result.0 ≡ held_in (record_at (loaded s.now).records k) }
{
    let at = k * layout::RECORD + layout::RECORDS;
    let kept = byte(s, at + 2)
        + byte(s, at + 2 + layout::LOT)
        + byte(s, at + 2 + 2 * layout::LOT)
        + byte(s, at + 2 + 3 * layout::LOT);
    Tranches((byte(s, at) + byte(s, at + 1) + kept) as u16)
}

// The line that bidder b has filed for product p, where k is b * 8 + p.
pub fn line(s: &[u8], k: usize) -> Line
    requires { Long s.now × (k < 256) }
    ensures { result ≡ get_or (loaded s.now).cards.lines k no_line }
{
    let at = k * layout::LINE + layout::BIDS;
    let tranches = Tranches(byte(s, at) as u16);
    let withdrawn = lots(s, at + 1);
    let priority = s[at + 1 + layout::LOTS];
    Line {
        tranches,
        withdrawn,
        priority,
    }
}

// The settings as a value, to be tested as a manager's are.
pub fn setup(s: &[u8]) -> Setup
    requires { Long s.now }
    ensures { result ≡ setup (loaded s.now) }
{
    let item = array::from_fn(|p| {
        let target = target(s, p);
        let cap = cap(s, p);
        let start = start(s, p).amount();
        Item { target, cap, start }
    });
    let row = array::from_fn(|i| row(s, i));
    let eligibility = array::from_fn(|b| initial(s, b));
    let statewide = statewide(s);
    let terms = Terms {
        unit: unit(s),
        products: s[layout::PRODUCTS],
        bidders: s[layout::BIDDERS],
        statewide,
    };
    let decrements = Decrements {
        rows: s[layout::ROWS],
        row,
    };
    Setup {
        terms,
        item,
        eligibility,
        decrements,
    }
}
