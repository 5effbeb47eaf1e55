// The console: the calls of documents 01 and 02 on lent bytes, and nothing else. Each call's contract is its one definition in the
// crate rules, specs/Calls.antt: its answer and every byte that it may write, for every input. `Leaves` and `Gives` are the shape of a
// contract; any two outcomes that have it coincide (rules/Settling: leaves-one, gives-one).
#![tactic(auto)]

ghost use Rattle.rules.specs.Answers.{Leaves, Gives};
ghost use Rattle.rules.specs.Calls.{open_call, file_call, count_call, calculate_call, plain_call, cutback_call, report_call, result_call, return_call, read_call, write_call, suggested_call};

use layout::STATE;
use rules::{
    Awarded, BasisPoints, Calculation, CardRead, Line, Refusal, Reported, Settings, Tranches,
};

// Open an auction: 1, 17, 15.
pub fn open(s: &mut [u8], given: Settings) -> Result<(), Refusal>
    ensures { Leaves (open_call s.old given) result s.new }
{
    if s.len() != STATE {
        return Err(Refusal::StateLength);
    }
    if !state::is_zero(s) {
        return Err(Refusal::NotIssued);
    }
    if !settings::settings_fit(given) {
        return Err(Refusal::Setting);
    }
    storing::opened(s, settings::setup_of(given));
    Ok(())
}

// File a bid card: 1, 2, 3, 4, 5, 6 to 13.
pub fn file(s: &mut [u8], card: &[u8]) -> Result<(), Refusal>
    ensures { Leaves (file_call s.old card.now) result s.new }
{
    numbers::state_number(s)?;
    filing::file_card(s, card)
}

// Count the bidders still to file: 1, 2, 3.
pub fn count(s: &[u8]) -> Result<u32, Refusal>
    ensures { Gives (count_call s.now) result }
{
    numbers::count_number(s)?;
    Ok(book::bidders(s) as u32 - u32::count_ones(book::filed(s)))
}

// Calculate a round, with one optional override a product: 1, 2, 3, 14, 19.
pub fn calculate(
    s: &mut [u8],
    draw: &[u8],
    overrides: [Option<BasisPoints>; 8],
) -> Result<Calculation, Refusal>
    ensures { Leaves (calculate_call s.old draw.now overrides) result s.new }
{
    numbers::calculate_number(s, draw, overrides)?;
    let done = round::calculate(s, draw, overrides);
    Ok(done)
}

// Calculate a round whose step 2 goes by an order of the products, not by rank: 1, 2, 3, 14, 19, 23.
pub fn calculate_plain(
    s: &mut [u8],
    draw: &[u8],
    overrides: [Option<BasisPoints>; 8],
    order: &[u8],
) -> Result<Calculation, Refusal>
    ensures { Leaves (plain_call s.old draw.now overrides order.now) result s.new }
{
    numbers::plain_number(s, draw, overrides, order)?;
    let done = round::calculate_plain(s, draw, overrides, order);
    Ok(done)
}

// Cut the volume back after round 1: 1, 2, 3, 20.
pub fn cutback(s: &mut [u8], targets: [Tranches; 8], caps: [Tranches; 8]) -> Result<(), Refusal>
    ensures { Leaves (cutback_call s.old targets caps) result s.new }
{
    numbers::cutback_number(s, targets, caps)?;
    cutback::cut_back(s, targets, caps);
    Ok(())
}

// Report to one bidder: 1, 2, 3 (issued), 6, 18.
pub fn report(s: &[u8], bidder: u8) -> Reported
    ensures { Gives (report_call s.now bidder) result }
{
    match numbers::report_number(s, bidder) {
        Ok(()) => reports::report_on(s, bidder as usize),
        Err(why) => reports::refused_report(why),
    }
}

// Give the result: 1, 2, 16.
pub fn result(s: &[u8]) -> Awarded
    ensures { Gives (result_call s.now) result }
{
    match numbers::result_number(s) {
        Ok(()) => reports::result_of(s),
        Err(why) => reports::refused_result(why),
    }
}

// Return the box: 1; any state of the right length is left all zero, as first issued.
pub fn return_box(s: &mut [u8]) -> Result<(), Refusal>
    ensures { Leaves (return_call s.old) result s.new }
{
    let long = s.len();
    if long != STATE {
        return Err(Refusal::StateLength);
    }
    state::clear(s);
    Ok(())
}

// Apart from any auction, read a card to a bid: 29, 4, 5.
pub fn read(card: &[u8], products: usize) -> CardRead
    ensures { Gives (read_call card.now products) result }
{
    card::read(card, products)
}

// Apart from any auction, write a bid as a card: 29, 4, 30.
pub fn write(
    room: &mut [u8],
    products: usize,
    bidder: u8,
    round: u16,
    lines: [Line; 8],
) -> Result<(), Refusal>
    ensures { Leaves (write_call room.old products bidder round lines) result room.new }
{
    card::write(room, products, bidder, round, lines)
}

// Apart from any auction, suggest a volume: 31.
pub fn suggested_volume(bid: u32, ratio: u32) -> Result<u32, Refusal>
    ensures { Gives (suggested_call bid ratio) result }
{
    cutback::suggested_volume(bid, ratio)
}
