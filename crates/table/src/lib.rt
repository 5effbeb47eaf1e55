// The places of a round as rows of numbers, lent: no copy of the table is made. The place of bidder b on product p stands in row
// b * 8 + p.
#![tactic(auto)]

mod draw;

ghost use Rattle.std.specs.Prelude.{◌≡◌, [], ◌≤◌, ◌<◌, get_or, set};
ghost use Rattle.rules.specs.Accept.{place_at};
ghost use Rattle.table.specs.Next.{sooner};
ghost use Rattle.table.specs.Room.{Held};
ghost use Rattle.table.specs.Rows.{lot_in, lots_in, place_in, places_in};

pub use draw::{bidder_at, draw_fits, is_drawn, is_known, times_drawn};
use rules::{Lot, Lots, Place, Record, Tranches};

// ---- The numbers of a row

const GOING: usize = 0;

const DENIED: usize = GOING + 1;

const RETAINED: usize = DENIED + 1;

const LEAVING: usize = RETAINED + LOTS;

const MOVING: usize = LEAVING + LOTS;

const RISE: usize = MOVING + 1;

const PRIORITY: usize = RISE + 1;

pub const WIDTH: usize = PRIORITY + 1;

// Of each lot the count, then the exit price.
const LOT: usize = 2;

const LOTS: usize = 4 * LOT;

// The lot whose count is the number at this place of row k.
fn lot(ps: &[[u32; WIDTH]; 256], k: usize, at: usize) -> Lot
    requires { (k < 256) × (at < 20) }
    ensures { result ≡ lot_in (get_or ps.now k []) at }
{
    let count = Tranches((ps[k][at] % 65536) as u16);
    Lot {
        count,
        exit: ps[k][at + 1],
    }
}

// The four lots from this place on.
fn lots(ps: &[[u32; WIDTH]; 256], k: usize, at: usize) -> Lots
    requires { (k < 256) × (at < 14) }
    ensures { result ≡ lots_in (get_or ps.now k []) at }
{
    Lots {
        one: lot(ps, k, at),
        two: lot(ps, k, at + LOT),
        three: lot(ps, k, at + 2 * LOT),
        four: lot(ps, k, at + 3 * LOT),
    }
}

pub fn record(ps: &[[u32; WIDTH]; 256], k: usize) -> Record
    requires { k < 256 }
    ensures { result ≡ (place_at (places_in ps.now) k).holds }
{
    let retained = lots(ps, k, RETAINED);
    let going = Tranches((ps[k][GOING] % 65536) as u16);
    let denied = Tranches((ps[k][DENIED] % 65536) as u16);
    Record {
        going,
        denied,
        retained,
    }
}

pub fn place_at(ps: &[[u32; WIDTH]; 256], k: usize) -> Place
    requires { k < 256 }
    ensures { result ≡ place_at (places_in ps.now) k }
{
    let holds = record(ps, k);
    let leaving = lots(ps, k, LEAVING);
    let moving = Tranches((ps[k][MOVING] % 65536) as u16);
    let rise = Tranches((ps[k][RISE] % 65536) as u16);
    let priority = (ps[k][PRIORITY] % 256) as u8;
    Place {
        holds,
        leaving,
        moving,
        rise,
        priority,
    }
}

fn row_of(l: Place) -> [u32; WIDTH]
    ensures { place_in result ≡ l }
{
    let r = l.holds.retained;
    let x = l.leaving;
    [
        l.holds.going.0 as u32,
        l.holds.denied.0 as u32,
        r.one.count.0 as u32,
        r.one.exit,
        r.two.count.0 as u32,
        r.two.exit,
        r.three.count.0 as u32,
        r.three.exit,
        r.four.count.0 as u32,
        r.four.exit,
        x.one.count.0 as u32,
        x.one.exit,
        x.two.count.0 as u32,
        x.two.exit,
        x.three.count.0 as u32,
        x.three.exit,
        x.four.count.0 as u32,
        x.four.exit,
        l.moving.0 as u32,
        l.rise.0 as u32,
        l.priority as u32,
    ]
}

pub fn put(ps: &mut [[u32; WIDTH]; 256], k: usize, l: Place)
    requires { k < 256 }
    ensures { places_in ps.new ≡ set (places_in ps.old) k l }
{
    ps[k] = row_of(l);
}

// What is held of each product.
pub fn held_all(ps: &[[u32; WIDTH]; 256], bidders: usize) -> [u32; 8]
    requires { bidders ≤ 32 }
    ensures { Held result (places_in ps.now) bidders }
{
    let n = bidders * 8;
    let mut held = [0u32; 8];
    for k in 0..n {
        let h = record(ps, k).held();
        let p = k % 8;
        held[p] = held[p] + h;
    }
    held
}

// ---- Whose turn it is, of the places of one product

// The turn of a place with nothing to take. Every other is below it.
pub const NOTHING: u64 = 4294967297;

// The lowest turn so far, and where in the draw its bidder stands.
#[derive(Clone, Copy)]
pub struct Next {
    pub at: usize,
    pub turn: u64,
}

impl Next {
    // Of equals the earliest stays.
    #[tactic(auto, using(std::proofs::lemmas::Bool::Decides::nat_tests))]
    pub fn sooner(self, i: usize, turn: u64) -> Next
        ensures { result ≡ sooner self i turn }
    {
        if turn < self.turn {
            return Next { at: i, turn };
        }
        self
    }
}
