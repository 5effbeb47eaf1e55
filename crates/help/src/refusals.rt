// The refusals, with what to do. A line of a number stands once, for each command that can give it.

// What a page says before its refusals, where the command changes nothing.
pub const CHANGES_NOTHING: &[u8] = b"  changes
    nothing
  refused
";

// Of a file that is no box.
pub const NO_BOX: &[u8] =
    b"     1  the file has another length than a box: start the desk with the right file
";

pub const NO_STATE: &[u8] =
    b"     2  the box holds what no auction leaves: desk --check BOX says more; only return will do
";

pub const NOT_OPEN: &[u8] =
    b"     3  no round is open: the box is issued, or the auction closed or stopped; show says which
";

pub const LENGTH: &[u8] =
    b"     4  the card has not the bytes of a card of so many products: a digit is lost or too many
";

pub const FILLING: &[u8] =
    b"     5  the last bits of the card are not 0: a digit is wrong; have the card sent again
";

pub const NO_BIDDER: &[u8] =
    b"     6  no bidder has this number: they count from 0, in the order of open; show lists them
";

pub const OTHER_ROUND: &[u8] =
    b"     7  the card is of another round: ask the bidder for its card of this one
";

// The rules of a bid.
pub const RULES: &[u8] =
    b"     8  bid, denied and retained together are above the product's cap: bid less on it
     9  the product's price has not just fallen, so nothing can be taken off it: bid what is going,
        or more
    10  more is bid in all than is going and free together: bid less
    11  more is withdrawn, all lots together, than the product is reduced by, or in all not what is
        reduced less what is switched: withdraw as many as the answer allows
    12  the exit price of a lot has to be above the going price, at most the price before its
        latest fall and above that of the lot before it; used lots come first, and an unused lot has
        price 0: the answer names the first lot that is wrong, and what it may be (help lots)
    13  where tranches are switched the increased products are numbered 1, 2, .. once each; every
        other priority is 0, and all are where nothing is switched
";

pub const DRAW: &[u8] =
    b"    14  the draw has not every bidder once: name them all, also those who have not filed
";

pub const SETTINGS: &[u8] =
    b"    15  a number is outside its limits: the answer names the first, and what is allowed
";

pub const NOT_CLOSED: &[u8] =
    b"    16  the auction is not closed: play its rounds to the end; a stopped one has no result
";

pub const NOT_ISSUED: &[u8] =
    b"    17  the box holds an auction, or what is left of one: show it, and return it when that is over
";

pub const TOO_SOON: &[u8] = b"    18  round 1 is not calculated: nothing can be reported before
";

pub const OVERRIDE: &[u8] =
    b"    19  an override is not 1 to 1000 basis points, also one that would do nothing: leave it out, or
        give one that is allowed
";

pub const NO_CUTBACK: &[u8] =
    b"    20  it is not round 2, or a card is filed in it: too late, unless undo takes round 1 back;
        or a target or cap is 0, larger than it was, a target above the one before it, a cap above
        its target, or the volume below the statewide cap: the answer names the first
";

pub const ORDER: &[u8] =
    b"    23  the order has not every product once: name them all, also those whose price has not fallen
";

pub const PRODUCTS: &[u8] = b"    29  a card is of 1 to 8 products
";

pub const FIELDS: &[u8] =
    b"    30  a number is too large for a card: bidder to 31, round to 4095, tranches and the count of a
        lot to 255, exit price to 131071, priority to 7; 0 on products that the card has not
";

pub const RATIO: &[u8] =
    b"    31  the ratio is 0, or more than 51200 tranches are bid: 1.5 is given as 150
";

pub const REFUSALS: &[&[u8]] = &[
    b"  refused N WORDS: REMARK
      The words are those of the rules (help letters has their letters). The remark says what was
      found and what is allowed. A refusal changes nothing; of several the first is given.
  numbers
",
    NO_BOX,
    NO_STATE,
    NOT_OPEN,
    LENGTH,
    FILLING,
    NO_BIDDER,
    OTHER_ROUND,
    RULES,
    DRAW,
    SETTINGS,
    NOT_CLOSED,
    NOT_ISSUED,
    TOO_SOON,
    OVERRIDE,
    NO_CUTBACK,
    ORDER,
    PRODUCTS,
    FIELDS,
    RATIO,
    b"  21, 22, 24 to 28 and all above 31 are never given.
",
];
