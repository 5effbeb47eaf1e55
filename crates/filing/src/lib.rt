// Filing a card: document 01, "The last valid card in a round stands; a refused one leaves the earlier one standing."
#![tactic(auto)]

ghost use Rattle.std.specs.Prelude.{◌≡◌, ◌<◌, Ok};
ghost use Rattle.rules.specs.Bits.{set_in};
ghost use Rattle.rules.specs.Answers.{answer_from};
ghost use Rattle.rules.specs.Card.{bid_by};
ghost use Rattle.rules.specs.Calls.{bid_number};
ghost use Rattle.rules.specs.Layout.{loaded};
ghost use Rattle.book.specs.Lent.{Lent};
ghost use Rattle.filing.specs.Filing.{Files};

use rules::{Bid, Line, OPEN, Refusal};

// 6, 7, and 8 to 13 of a bid that was read.
#[tactic(auto, using(std::proofs::lemmas::Bool::Decides::nat_tests))]
fn bid_number(s: &[u8], bidder: u8, round: u16, lines: [Line; 8]) -> Result<(), Refusal>
    requires { Lent s.now }
    ensures { result ≡ answer_from (bid_number (loaded s.now) (Ok (bid_by bidder round)) lines) }
{
    let b = bidder as usize;
    if b >= book::bidders(s) {
        return Err(Refusal::NoBidder);
    }
    if round != book::round(s) {
        return Err(Refusal::OtherRound);
    }
    let ticks = held::ticks(s);
    bids::judge(s, &ticks, b, lines)
}

// "A bitmap marks who has filed": bit b is made 1.
fn marked(filed: u32, b: usize) -> u32
    requires { b < 32 }
    ensures { result ≡ set_in filed b 1 }
{
    let one = 1u64 << b;
    let x = filed as u64;
    ((x / one / 2 * 2 + 1) * one + x % one) as u32
}

// 3, 4 and 5, and 6 to 13 of a card for the auction; where none applies it is filed: the bidder's bit is set, and its slot holds the lines.
pub fn file_card(s: &mut [u8], card: &[u8]) -> Result<(), Refusal>
    requires { Lent s.old }
    ensures { Files s.old card.now result s.new }
{
    if book::phase(s) != OPEN {
        return Err(Refusal::NotOpen);
    }
    let got = card::read(card, book::products(s));
    let lines = got.lines;
    let Bid { bidder, round } = got.card?;
    bid_number(s, bidder, round, lines)?;
    let b = bidder as usize;
    let marks = marked(book::filed(s), b);
    let _ = storing::as_stored(s);
    storing::slot(s, b, lines);
    storing::filed(s, marks);
    Ok(())
}
