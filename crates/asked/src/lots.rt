// The text of lots: COUNT@PRICE, one to four of them joined by commas without spaces, or - for none.
ghost use Rattle.std.specs.Prelude.{◌≡◌, ◌-◌, ◌≤◌, length};
ghost use Rattle.asked.specs.Lots.{place_of, is_dash, number_in, lot_in, lots_in, lots_from};
ghost use Rattle.rules.specs.Lots.{no_lots};

use crate::numbers::two_bytes;
use rules::{Lot, Lots, Tranches};
use text::{Read, read_number};

// What is wrong with a bid that is typed.
#[derive(Clone, Copy)]
pub enum Fault {
    // The line ends within a product's words.
    Short,
    NotANumber,
    Large,
    // Neither a number nor lots.
    NoLots,
    // Nothing stands before a comma or after it.
    NoLot,
    // A count or a price is missing.
    NoNumber,
    SecondAt,
    FifthLot,
}

// What is wrong, and where.
#[derive(Clone, Copy)]
pub struct Wrong(pub Fault, pub usize);

// The first place of a byte from one place to another, or the other place.
fn place_of(s: &[u8], b: u8, at: usize, e: usize) -> usize
    requires { (at ≤ e) × (e ≤ length s.now) }
    ensures { (result ≡ place_of s.now b at (e - at)) × ((at ≤ result) × (result ≤ e)) }
{
    for i in at..e {
        if s[i] == b {
            return i;
        }
    }
    e
}

// A count or a price, from one place to another.
fn number_in(s: &[u8], a: usize, e: usize) -> Result<u32, Wrong>
    requires { (a ≤ e) × (e ≤ length s.now) }
    ensures { result ≡ number_in s.now a e }
{
    if a == e {
        return Err(Wrong(Fault::NoNumber, a));
    }
    match read_number(&s[a..e]) {
        Read::Value(n) => Ok(n),
        Read::Large => Err(Wrong(Fault::Large, a)),
        Read::Other => Err(Wrong(Fault::NotANumber, a)),
    }
}

// COUNT@PRICE, from one place to another.
fn lot_in(s: &[u8], a: usize, e: usize) -> Result<Lot, Wrong>
    requires { (a ≤ e) × (e ≤ length s.now) }
    ensures { result ≡ lot_in s.now a e }
{
    if a == e {
        return Err(Wrong(Fault::NoLot, a));
    }
    let k = place_of(s, b'@', a, e);
    if k == e {
        return Err(Wrong(Fault::NoLots, a));
    }
    let second = place_of(s, b'@', k + 1, e);
    if second < e {
        return Err(Wrong(Fault::SecondAt, second));
    }
    let n = number_in(s, a, k)?;
    let exit = number_in(s, k + 1, e)?;
    Ok(Lot {
        count: Tranches(two_bytes(n)),
        exit,
    })
}

// One to four, joined by commas.
fn joined_in(s: &[u8], a: usize, e: usize) -> Result<Lots, Wrong>
    requires { (a ≤ e) × (e ≤ length s.now) }
    ensures { result ≡ lots_from s.now a e 0 4 no_lots }
{
    let mut lots = Lots::none();
    let mut at = a;
    for i in 0..4 {
        let stop = place_of(s, b',', at, e);
        lots = lots.put(i, lot_in(s, at, stop)?);
        if e <= stop {
            return Ok(lots);
        }
        at = stop + 1;
    }
    Err(Wrong(Fault::FifthLot, at))
}

fn is_dash(s: &[u8], a: usize, e: usize) -> bool
    requires { (a ≤ e) × (e ≤ length s.now) }
    ensures { result ≡ is_dash s.now a e }
{
    e - a == 1 && s[a] == b'-'
}

// The whole text, from one place to another.
pub fn lots_in(s: &[u8], a: usize, e: usize) -> Result<Lots, Wrong>
    requires { (a ≤ e) × (e ≤ length s.now) }
    ensures { result ≡ lots_in s.now a e }
{
    if is_dash(s, a, e) {
        return Ok(Lots::none());
    }
    joined_in(s, a, e)
}
