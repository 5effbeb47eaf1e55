// Help on cards apart from any auction.
use crate::refusals::{CHANGES_NOTHING, FIELDS, FILLING, LENGTH, PRODUCTS};

pub const READ: &[&[u8]] = &[
    b"  read N HEX
      what is on a card; the box is not asked, so nothing says whether the bid would be taken
  words
    N    products of the card, 1 to 8
    HEX  the card, two hexadecimal digits a byte: 16, 30, 44, 58, 72, 86, 100 or 114 bytes for 1
         to 8 products
    The answer is bidder and round, then of each product T LOTS P: tranches, what is withdrawn as
    COUNT@PRICE,.. or -, and priority (help lots).
",
    CHANGES_NOTHING,
    PRODUCTS,
    LENGTH,
    FILLING,
    b"  example, on an issued box
    > read 2 0001008080f000407a800000000000000200000000000000000000000002
    ok 0 2 1 1@960,1@980 0 2 - 1
",
];

pub const WRITE: &[&[u8]] = &[
    b"  write N B R T LOTS P ..
      a bid as a card in bytes; it is not filed (bid writes a card and files it)
  words
    N   products of the card, 1 to 8
    B   the bidder, 0 to 31
    R   the round, 0 to 4095
    T LOTS P of each product: tranches, what is withdrawn, priority; help bid says more. Lots need
        not be in order here. A product that is left out has 0 - 0
",
    CHANGES_NOTHING,
    PRODUCTS,
    FIELDS,
    b"  example, on an issued box
    > write 2 0 2  1 1@960,1@980 0  2 - 1
    ok 0001008080f000407a800000000000000200000000000000000000000002
",
];
