// Help on the commands around the rounds: the opening, names, the volume, the result, the return.
use crate::refusals::{
    CHANGES_NOTHING, NO_BOX, NO_CUTBACK, NO_STATE, NOT_CLOSED, NOT_ISSUED, NOT_OPEN, RATIO,
    SETTINGS,
};

pub const OPEN: &[&[u8]] = &[
    b"  open UNIT STATEWIDE product T C P .. bidder E .. row PCT DEC ..
      opens an auction on an issued box; round 1 is then open for cards
  words
    UNIT       kwh: prices in thousandths of a cent per kWh, so 14500 is 14.500 cents per kWh
               mwday: prices in cents per MW-day, so 23500 is $235.00 per MW-day
    STATEWIDE  statewide load cap in tranches, 1 to the sum of the targets
    T C P      of each product, 1 to 8 of them, no target above the one before it:
               target, 1 to 200 tranches; load cap of one bidder, 1 to T tranches;
               starting price, 1 to 99999 in the unit
    E          of each bidder, 1 to 32 of them: initial eligibility, 1 to STATEWIDE tranches
    PCT DEC    of each row of decrements, 1 to 8 of them: from an excess supply of PCT percent of
               the target on the price falls by DEC basis points (hundredths of a percent);
               PCT is 0 in the first row, then rises, at most 60000; DEC is 50 to 500
    Products, bidders and rows are numbered from 0, as they are given. The words product, bidder
    and row stand before each group or once before all. A long line may end in \\ and go on in the
    next one.
  changes
    The box: round 1 is open, nothing is bid, each bidder's eligibility is free. undo cannot take an
    opening back, nor what was before it.
  refused
",
    NO_BOX,
    NOT_ISSUED,
    SETTINGS,
    b"  example, on an issued box
    > open kwh 21 product 29 14 14500  20 9 14500  7 3 14250  1 1 14500 \\
          bidder 15 14 16 21 14 9 row 0 50  10 150  20 300  43 425  53 500
    ok
    Four products and six bidders, with prices from 14.500 cents per kWh down: by 0.50 percent where
    too much is bid, by 1.50 percent from 10 percent above target on, and so forth.
",
];

pub const NAME: &[&[u8]] = &[
    b"  name bidder B NAME
  name product P NAME
      gives a bidder or a product of the auction a name; answers then have it after the number
  words
    B P    the number, from 0
    NAME   the rest of the line, 1 to 24 bytes without brackets; no two bidders have the same, nor
           two products. The name - takes the name away
  changes
    The names, in BOX.names beside the box. The box, its journal and the calculations stay as they
    are: commands go by numbers. A return takes the names away, and undo does not bring them back.
  refused
",
    NO_BOX,
    NO_STATE,
    b"  example, in round 1 of examples/new-jersey
    > name bidder 0 Alpha
    ok
    > name product 0 PSE&G
    ok
",
];

pub const NAMES: &[&[u8]] = &[
    b"  names
      how many names are given, and each of them, bidders first; help name says how to give one
",
    CHANGES_NOTHING,
    NO_BOX,
    NO_STATE,
    b"  example, in round 1 of examples/new-jersey
    > name bidder 0 Alpha
    ok
    > names
    ok 1
",
];

pub const SUGGEST: &[&[u8]] = &[
    b"  suggest BID RATIO
      the suggested volume: as many tranches as BID tranches bid serve at a target ratio
  words
    BID    tranches bid in round 1, all products together, 0 to 51200
    RATIO  target ratio of tranches bid to tranches wanted, in hundredths: 150 is 1.5
    The answer is BID times 100 through RATIO, rounded down, in tranches.
  changes
    nothing; help cutback says how the volume is cut
  refused
",
    RATIO,
    b"  example, in round 2 of examples/new-jersey
    > suggest 88 150
    ok 58
    In round 1 of it 88 tranches were bid. They are enough for 58, and 57 are wanted: no cutback.
",
];

pub const CUTBACK: &[&[u8]] = &[
    b"  cutback T C ..
      cuts the volume after round 1, while round 2 is open and no card of it is filed
  words
    T C    of each product: revised target and revised load cap of one bidder, in tranches; none
           larger than before, none 0, no target above the one before it, no cap above its target,
           and all targets together not below the statewide cap. What stays is given as it was.
  changes
    The box: a bidder above a reduced cap is set to the cap, and the rest is free eligibility. The
    prices of round 2 are worked out again, from the starting prices and without overrides. It may
    be done again until a card is filed. undo does not take it back alone: it takes back the
    calculation of round 1 too.
    Cut before any report of round 1 goes out: the reports tell the prices of round 2.
  refused
",
    NO_BOX,
    NO_STATE,
    NOT_OPEN,
    NO_CUTBACK,
    b"  example, in round 2 of examples/new-jersey
    > cutback 27 13  19 9  7 3  1 1
    ok
    Two tranches less on product 0, whose cap comes down to 13, and one less on product 1.
",
];

pub const RESULT: &[&[u8]] = &[
    b"  result
      the result of a closed auction: of each product its one price, in the unit of the auction, and
      of each bidder the tranches that it is awarded on each product
    The price is the highest at which a tranche of the product is held. A tranche held at the going
    price, a denied switch and a retained withdrawal are all awarded.
",
    CHANGES_NOTHING,
    NO_BOX,
    NO_STATE,
    NOT_CLOSED,
    b"  example, after the close of examples/new-jersey
    > result
    ok
      product 0 price 11547
      bidder 1 2 9 3 0
",
];

pub const RETURN: &[&[u8]] = &[
    b"  return
      returns the box: every byte of it becomes zero, and it is issued. Take the result first
  changes
    The box; the names are gone, and the journal is closed as BOX.journal.1, or the next number. At
    a terminal the desk asks first where the auction is not closed. undo brings the auction back,
    without the names, until another one is opened.
  refused
",
    NO_BOX,
    b"  example, after the close of examples/new-jersey
    > return
    ok
    > show
    ok issued
",
];
