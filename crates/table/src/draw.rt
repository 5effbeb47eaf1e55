// The draw order: "a list of all bidders, each once, as one byte each". As many entries as bidders, and every bidder found among
// them: so none stands twice.
ghost use Rattle.std.specs.Prelude.{◌≡◌, ◌≤◌, ◌<◌, ltb, eqb, length, is_some};
ghost use Rattle.rules.specs.Count.{sum_up_to, first_up_to};
ghost use Rattle.rules.specs.Bid.{one_if};
ghost use Rattle.rules.specs.Round.{drawn, draw_fits};
ghost use Rattle.table.specs.Drawn.{Drawn};

// An entry is a bidder.
pub fn is_known(entry: u8, bidders: usize) -> bool
    ensures { result ≡ ltb entry bidders }
{
    (entry as usize) < bidders
}

// How often bidder b stands in it.
pub fn times_drawn(order: &[u8], b: usize) -> usize
    ensures { result ≡ sum_up_to (λ i. one_if (eqb (drawn order.now i) b)) (length order.now) }
{
    order.iter().filter(|x| **x as usize == b).count()
}

// Bidder b stands among the first entries, as many as there are bidders.
pub fn is_drawn(order: &[u8], bidders: usize, b: usize) -> bool
    requires { bidders ≤ length order.now }
    ensures { result ≡ is_some (first_up_to (λ i. eqb (drawn order.now i) b) bidders) }
{
    (0..bidders).any(|i| order[i] as usize == b)
}

pub fn draw_fits(order: &[u8], bidders: usize) -> bool
    ensures { result ≡ draw_fits bidders order.now }
{
    if order.len() != bidders {
        return false;
    }
    let known = (0..bidders).all(|i| is_known(order[i], bidders));
    known & (0..bidders).all(|b| is_drawn(order, bidders, b))
}

// The bidder at a place of the draw.
pub fn bidder_at(order: &[u8], i: usize, bidders: usize) -> usize
    requires { (i < bidders) × Drawn bidders order.now }
    ensures { (result ≡ drawn order.now i) × (result < bidders) }
{
    order[i] as usize
}
