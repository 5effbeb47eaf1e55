// Document 02, request 10: "a plain engine for step 2 that takes any order of the products and goes through it again and again, keeping
// as many as are lacking at each visit." One tranche is kept as the box's own engine keeps it, on the same table and the same numbers.
#![tactic(auto)]

ghost use Rattle.std.specs.Prelude.{◌≡◌, cond, ◌-◌, ◌<◌, eqb};
ghost use Rattle.rules.specs.Keep.{kept};
ghost use Rattle.rules.specs.Plain.{keep_many, visits, plain_all};
ghost use Rattle.rules.specs.Round.{drawn};
ghost use Rattle.held.specs.Ticks.{is_one};
ghost use Rattle.table.specs.Drawn.{Drawn};
ghost use Rattle.table.specs.Room.{Room, Prepared, target_on};
ghost use Rattle.table.specs.Rows.{places_in};
ghost use Rattle.plain.specs.Going.{Going, Gone};

use table::WIDTH;

// How many tranches a ticked product lacks to its target.
fn lacking(held: u32, target: u16, tick: u8) -> u32
    ensures { result ≡ cond (eqb tick 1) (target - held) 0 }
{
    if tick != 1 {
        return 0;
    }
    let aim = target as u32;
    if aim <= held {
        return 0;
    }
    aim - held
}

// As many kept on product p, one after another; the count of all kept so far is returned.
fn keep_many(
    ps: &mut [[u32; WIDTH]; 256],
    held: &mut [u32; 8],
    turns: &mut [u64; 256],
    ranks: &mut [u32; 256],
    draw: &[u8],
    p: usize,
    products: usize,
    bidders: usize,
    many: u32,
    count: u32,
) -> u32
    requires { Going products bidders draw.now (places_in ps.old) held.old turns.old ranks.old count × (p < 8) }
    ensures { Gone products bidders draw.now (keep_many products bidders (drawn draw.now) many (kept (places_in ps.old) count) p) (places_in ps.new) held.new turns.new ranks.new result }
{
    let mut all = count;
    for _ in 0..many {
        if !keep::keep_next(ps, held, turns, ranks, draw, p, products, bidders) {
            return all;
        }
        all += 1;
    }
    all
}

// The products in the order given, each visited once.
fn pass(
    ps: &mut [[u32; WIDTH]; 256],
    held: &mut [u32; 8],
    turns: &mut [u64; 256],
    ranks: &mut [u32; 256],
    targets: &[u16; 8],
    ticks: &[u8; 8],
    draw: &[u8],
    order: &[u8],
    products: usize,
    bidders: usize,
    count: u32,
) -> u32
    requires { Going products bidders draw.now (places_in ps.old) held.old turns.old ranks.old count × Drawn products order.now }
    ensures { Gone products bidders draw.now (visits products bidders (target_on targets.now) (is_one ticks.now) (drawn draw.now) (drawn order.now) (kept (places_in ps.old) count) products) (places_in ps.new) held.new turns.new ranks.new result }
{
    let mut all = count;
    for i in 0..products {
        let p = table::bidder_at(order, i, products);
        let many = lacking(held[p], targets[p], ticks[p]);
        all = keep_many(
            ps, held, turns, ranks, draw, p, products, bidders, many, all,
        );
    }
    all
}

// Again and again, until a pass keeps nothing. The number of tranches kept is returned.
pub fn keep_plain(
    ps: &mut [[u32; WIDTH]; 256],
    targets: &[u16; 8],
    ticks: &[u8; 8],
    draw: &[u8],
    order: &[u8],
    products: usize,
    bidders: usize,
) -> u32
    requires { Prepared products bidders draw.now (places_in ps.old) × Drawn products order.now }
    ensures { (kept (places_in ps.new) result ≡ plain_all products bidders (target_on targets.now) (is_one ticks.now) (drawn draw.now) (drawn order.now) (places_in ps.old)) × Room (places_in ps.new) }
{
    let mut held = [0u32; 8];
    let mut turns = [0u64; 256];
    let mut ranks = [0u32; 256];
    keep::number_all(ps, &mut turns, &mut ranks);
    let mut count: u32 = 0;
    let most = keep::sum_all(ps, &mut held, bidders);
    for _ in 0..most {
        let all = pass(
            ps, &mut held, &mut turns, &mut ranks, targets, ticks, draw, order, products, bidders,
            count,
        );
        if all == count {
            return count;
        }
        count = all;
    }
    count
}
