// Document 01, "Standing means": the clauses on open, closed and stopped states. What each says is in the crate rules,
// specs/Legal.antt.
ghost use Rattle.std.specs.Prelude.{◌≡◌};
ghost use Rattle.rules.specs.Legal.{as_opened, nothing_kept, phase_stands};
ghost use Rattle.rules.specs.Layout.{loaded};
ghost use Rattle.book.specs.Lent.{Long, Lent};
ghost use Rattle.held.specs.Sums.{AllKept, Counted};

// "open round 1 is as opened, with p = q = starting price"
fn as_opened(s: &[u8]) -> bool
    requires { Long s.now }
    ensures { result ≡ as_opened (loaded s.now) }
{
    let records = (0..256usize).all(|k| book::record(s, k).is_zero());
    let free = (0..32usize).all(|b| book::free(s, b).0 == book::initial(s, b).0);
    let prices = (0..8usize).all(|p| {
        let start = book::start(s, p).amount();
        (book::price(s, p).amount() == start) & (book::before(s, p).amount() == start)
    });
    records & (free & prices)
}

// "In an open round 2 nothing is kept, which standing requires."
fn nothing_kept(s: &[u8], kept: &[u32; 8]) -> bool
    requires { Lent s.now × AllKept (loaded s.now) kept.now }
    ensures { result ≡ nothing_kept (loaded s.now) }
{
    let m = book::products(s);
    (0..m).all(|p| kept[p] == 0)
}

pub fn phase_stands(s: &[u8], held: &[u32; 8], kept: &[u32; 8]) -> bool
    requires { Counted s.now held.now kept.now }
    ensures { result ≡ phase_stands (loaded s.now) }
{
    let phase = book::phase(s);
    if phase == rules::OPEN {
        let round = book::round(s);
        if round == 1 {
            return as_opened(s);
        }
        // "open later rounds have excess above 0"
        return (held::excess_by(s, held) > 0) & ((round != 2) | nothing_kept(s, kept));
    }
    // "closed and stopped states meet step 5 and hold no cards"
    let none = book::filed(s) == 0;
    let excess = held::excess_by(s, held);
    if phase == rules::CLOSED {
        return none & (excess == 0);
    }
    none & ((phase == rules::STOPPED) & ((excess > 0) & held::stops_by(s, held)))
}
