// Help on the cards of a round.
use crate::refusals::{
    CHANGES_NOTHING, FIELDS, FILLING, LENGTH, NO_BIDDER, NO_BOX, NO_STATE, NOT_OPEN, OTHER_ROUND,
    RULES,
};

// The letters that the rules of a bid have, in words.
const LETTERS: &[u8] = b"  letters in its refusals
    of one product: b bid (T), g going before, d denied switches, r retained withdrawals,
    R the reduction from g to b, I the increase, p the going price, q the price before its latest
    fall, x the exit price of a lot; of the bidder: f free eligibility, s switched in all (what
    its increases are above f), w withdrawn in all (its reductions less s), k products increased
";

pub const BID: &[&[u8]] = &[
    b"  bid B T LOTS P ..
      writes bidder B's card of the present round and files it
  words
    B   the bidder, from 0
    Then of each product of the auction, in its order:
    T     tranches bid at the going price
    LOTS  withdrawn: of those taken off the product, how many leave the auction for good and at
          which exit prices, as COUNT@PRICE,COUNT@PRICE, up to four; - for none (help lots). The
          others that are taken off are switched to products that are increased
    P     switching priority: 1 for the increased product that matters most, then 2, ..; 0 where
          the product is not increased, and 0 everywhere where nothing is switched
    T W X P is taken too: one lot of W at the exit price X, or 0 0 for none.
    Free eligibility serves the increases first; the increases above it are switches. What is free
    and not used in this round is lost.
  changes
    The box: the card is filed. A later card of the bidder in this round takes its place; a refused
    one leaves it. ok is followed by the card in bytes. There is no undo: file another card. Before
    or after which other bidders it is filed does not matter (help order).
",
    LETTERS,
    b"  refused
",
    NO_BOX,
    NO_STATE,
    NOT_OPEN,
    FIELDS,
    NO_BIDDER,
    RULES,
    b"  example, on an issued box
    > open kwh 6 product 4 4 1000  2 2 1000 bidder 6 6 row 0 500
    ok
    > bid 0  4 - 0  1 - 0
    ok 000082000000000000000000000000000100000000000000000000000000
    > bid 1  4 - 0  1 - 0
    ok 080082000000000000000000000000000100000000000000000000000000
    > calculate 0 1
    ok kept 0 outbid 0
    > bid 0  1 1@960,1@980 0  2 - 1
    ok 0001008080f000407a800000000000000200000000000000000000000002
    The price of product 0 fell to 950. Bidder 0 takes three of its four tranches off: it withdraws
    one that it would have served down to 0.960 cents per kWh and one down to 0.980, and switches
    one to product 1.
",
];

pub const FILE: &[&[u8]] = &[
    b"  file HEX
      files a card given as bytes; the card names its bidder and its round
  words
    HEX  the card, two hexadecimal digits a byte: 16, 30, 44, 58, 72, 86, 100 or 114 bytes for 1
         to 8 products. read N HEX shows what is on it, write makes one; bid does both at once
  changes
    The box: the card is filed. A later card of the bidder in this round takes its place; a refused
    one leaves it. There is no undo: file another card. Before or after which other bidders it is
    filed does not matter (help order).
",
    LETTERS,
    b"  refused
",
    NO_BOX,
    NO_STATE,
    NOT_OPEN,
    LENGTH,
    FILLING,
    NO_BIDDER,
    OTHER_ROUND,
    RULES,
    b"  example, on an issued box
    > open kwh 6 product 4 4 1000  2 2 1000 bidder 6 6 row 0 500
    ok
    > file 000082000000000000000000000000000100000000000000000000000000
    ok
    The same as bid 0  4 - 0  1 - 0
",
];

pub const COUNT: &[&[u8]] = &[
    b"  count
      how many bidders are still to file in this round; missing says which
",
    CHANGES_NOTHING,
    NO_BOX,
    NO_STATE,
    NOT_OPEN,
    b"  example, in round 1 of examples/new-jersey
    > count
    ok 6
",
];

pub const MISSING: &[&[u8]] = &[
    b"  missing
      how many bidders are still to file in this round, and which; each of them gets a default bid
      when the round is calculated (help calculate)
",
    CHANGES_NOTHING,
    NO_BOX,
    NO_STATE,
    NOT_OPEN,
    b"  example, at the end of round 7 of examples/new-jersey
    > missing
    ok 1
      still to file: 0
",
];

pub const FILED: &[&[u8]] = &[
    b"  filed
      how many of the bidders have filed in this round, and the card of each
  filed B
      the card that bidder B has filed in this round, in numbers and in words
  words
    B   the bidder, from 0
    A card is shown as it is typed after bid B: T LOTS P of each product, tranches, what is
    withdrawn, priority. filed B has bidder and round before them.
",
    CHANGES_NOTHING,
    NO_BOX,
    NO_STATE,
    NOT_OPEN,
    NO_BIDDER,
    b"  example, at the end of round 7 of examples/new-jersey
    > filed
    ok 5 of 6
    > filed 2
    ok 2 7 5 - 0 6 1@11901 0 3 - 0 0 - 0
    > filed 0
    ok not filed
",
];
