// Help on what is done when the cards are in.
use crate::refusals::{
    CHANGES_NOTHING, DRAW, NO_BIDDER, NO_BOX, NO_STATE, NOT_OPEN, ORDER, OVERRIDE, TOO_SOON,
};

pub const CALCULATE: &[&[u8]] = &[
    b"  calculate D0 D1 ..
  calculate D0 D1 .. override P POINTS ..
  calculate D0 D1 .. [override P POINTS ..] order P0 P1 ..
      calculates the round
  words
    D0 D1 ..  all bidders, each once, in the order of the draw, earliest first; also those who have
              not filed. Draw by lot, best before the bids are seen; the box draws nothing
    P POINTS  of each product whose price is to fall by your decrement instead of that of its row:
              the product, and 1 to 1000 basis points. It holds for this calculation alone
    P0 P1 ..  all products, each once, in any order: which is served before which, where several
              are short. Without it they are by rank, as they stand in open
    The answer is ok kept K outbid O: K tranches are kept to fill a target, withdrawals that are
    retained and switches that are denied; O that were kept before are outbid by new tranches.
  default bids
    Who has not filed bids nothing on each product whose price has just fallen, all withdrawn in
    one lot at the price before that fall, and as before on the others. At a terminal the desk names
    them and asks first; a script is not asked.
  overrides
    A price that falls by your decrement is overridden: the answer, show and every report say so
    until the next calculation or a cutback. An override does nothing where the product is not above
    target, or where the auction closes or stops; the answer says which did nothing.
  an order of the products
    Does rank favour a product where several are short? No: each order of the products gives the
    same answer and leaves the same box, byte for byte. To show it, calculate, undo, and calculate
    with an order: as often as you like, and whichever is the last may stand.
  a round without a fall
    Where no product is above target no price falls. The auction goes on only because a denied
    switch was outbid and became free eligibility, which its bidder may bid in the next round. How
    long can that go on? Each such round uses up at least one denied switch. So with D of them
    standing a price falls or the auction ends within D + 1 more calculations, whatever is bid and
    drawn; the answer says how many. And whatever happens, no more rounds in a row can pass without
    a fall than there are tranches in all, the sum of the targets.
  changes
    The box: the next round is open at its prices, or the auction is closed (total excess supply is
    0), or stopped (a product above target at price 1, or round 4095). The state before is kept as
    BOX.before: undo puts it back, once.
  refused
",
    NO_BOX,
    NO_STATE,
    NOT_OPEN,
    DRAW,
    OVERRIDE,
    ORDER,
    b"  example, at the end of round 6 of examples/new-jersey
    > calculate 5 4 0 2 1 3 override 1 200
    ok kept 4 outbid 0
    > show
    ok open round 7 unit kwh statewide 21
      product 1 target 20 cap 9 start 14500 price 12135 before 12383 held 29 overridden
    The price of product 1 falls by 2 percent; without an override it falls by the 4.25 of its row.
    > undo
    ok
    > calculate 5 4 0 2 1 3 override 1 200 order 3 2 1 0
    ok kept 4 outbid 0
    Products 0 and 2 were short. Now 2 was served before 0, and nothing is different.
",
];

pub const UNDO: &[&[u8]] = &[
    b"  undo
      puts back the state before the last calculation or return, once
  changes
    The box: what was filed or cut back since goes too. It stands in the journal. Without a box file
    nothing is kept to put back; an opening ends what could be undone, and so does an undo. Names
    that went with a return stay away.
    Where reports went out already, tell the bidders.
  refused
",
    NO_BOX,
    b"    error nothing to undo ..: nothing was calculated or returned since; nothing is changed
  example, at the end of round 1 of examples/new-jersey
    > calculate 2 3 1 0 5 4
    ok kept 0 outbid 0
    > undo
    ok
",
];

pub const SHOW: &[&[u8]] = &[
    b"  show
      the manager's view of the whole state; nothing of it is for a bidder
  what it says
    first line   issued, or open, closed or stopped, with round, unit and statewide cap
    product      target, cap, start (starting price), price (going), before (the price before its
                 latest fall) and held (all tranches bid, denied and retained); overridden where
                 the price fell by a decrement of the manager's
    row          percentage of the target, decrement in basis points
    bidder       eligibility (initial), free, filed (1 where its card is filed); of each product
                 G D LOTS: going, denied, and what is retained, as COUNT@PRICE,.. or - for none
    card         the card that is filed, as it is typed: of each product T LOTS P, tranches, what
                 is withdrawn, priority
",
    CHANGES_NOTHING,
    NO_BOX,
    NO_STATE,
    b"  example, in round 2 of examples/new-jersey
    > show
    ok open round 2 unit kwh statewide 21
      product 0 target 29 cap 14 start 14500 price 13884 before 14500 held 44
",
];

pub const REPORT: &[&[u8]] = &[
    b"  report B
      what bidder B is told after a round
  report all
      the reports to all bidders, one after the other; hand to each its own alone
  words
    B   the bidder, from 0
    The first line has the phase, the range that total excess supply is in (the exact number is not
    told) and the bidder's free eligibility, which it may bid in the next round or loses. Then of
    each product the going price in the unit, and the bidder's tranches: going (at the going price),
    denied (switches), retained (withdrawals) as COUNT@PRICE,.. with their exit prices, or - for
    none; overridden where the price fell by a decrement of the manager's.
",
    CHANGES_NOTHING,
    NO_BOX,
    NO_STATE,
    b"     3  the box is issued: there is no auction
",
    NO_BIDDER,
    TOO_SOON,
    b"  example, in round 2 of examples/new-jersey
    > report 0
    ok open excess 31-40 free 0
      product 0 price 13884 going 10 denied 0 retained -
    > report all
    ok 6
",
];
