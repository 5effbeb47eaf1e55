// Help on what belongs to no one command.

pub const UNITS: &[&[u8]] = &[
    b"  units
    price, exit price     with kwh thousandths of a cent per kWh: 13884 is 13.884 cents per kWh
                          with mwday cents per MW-day: 23500 is $235.00 per MW-day
                          Which of them is fixed by open, for the whole auction. No point and no
                          comma is typed in a number
    decrement             basis points, hundredths of a percent of the price: 425 is 4.25 percent
    percentage of a row   percent of the target: 43 is 43 percent above target
    ratio of suggest      hundredths: 150 is 1.5
    target, cap, eligibility, tranches, withdrawn, excess
                          whole tranches
    bidder, product, row  its number, from 0 in the order of open
    round                 from 1
    card                  bytes, two hexadecimal digits each
",
];

pub const LOTS: &[&[u8]] = &[
    b"  lots
    What a bidder withdraws from a product is up to four lots, each a count of tranches and the exit
    price down to which the bidder would have served them.
  how they are typed
    COUNT@PRICE     a lot, without spaces: 2@13900 is 2 tranches at 13.900 cents per kWh
    LOT,LOT,..      two to four lots, joined by commas, the lowest price first: 2@13900,1@14200
    -               nothing is withdrawn
    T LOTS P is what a bid has of each product: 7 2@13900,1@14200 0. The older T W X P is taken too,
    and is one lot: 7 2 13900 0 is 7 2@13900 0, and 7 0 0 0 is 7 - 0. A line may have both.
  what is asked of them
    11  the counts of all lots together are at most what the product is reduced by, and in all what
        is reduced less what is switched
    12  each price is above the going price and at most the price before its latest fall; the
        prices rise from lot to lot; used lots come first (not 3@13900,0@0,2@14200), and a lot
        without tranches has no price (not 0@13900)
  what becomes of them
    Where withdrawals are needed to fill a target, the lowest exit price of all bidders' lots is
    retained first; of equal ones the earliest in the draw. So of a bidder the first lots are
    retained, and only the last of them may be in part. New tranches outbid the highest first. What
    is retained is shown as it is typed.
",
];

pub const LETTERS: &[&[u8]] = &[
    b"  letters in the words of the refusals
    of a bidder on one product
      b  tranches bid on the card
      g  going: tranches held at the going price, as they stand before the round is calculated
      d  denied switches: held at the price before its latest fall, to fill the target
      r  retained withdrawals: held at their exit price, to fill the target
      R  reduction, g less b where that is above 0
      I  increase, b less g where that is above 0
      x  exit price of a lot of the tranches withdrawn
    of a bidder
      f  free eligibility: may be bid on any product, in this round only
      s  switches: what its increases in all are above f
      w  withdrawn in all: its reductions less s
      k  how many products it increases
    of a product
      p  the going price
      q  the price before its latest fall; the going price where it has not fallen yet
  A product ticked where its price has just fallen, since more was held than its target.
",
];

pub const ROUND: &[&[u8]] = &[
    b"  a round
    1  bid B .., or file HEX: each bidder's card. One that is refused is told to its bidder, who may
       send another; the last that is accepted stands. Who files first does not matter (help order).
    2  count, missing: who is still to file. filed: what is filed.
    3  Draw the order of all bidders by lot, outside the box.
    4  calculate D0 D1 ..: the round, with the bidders as drawn. Who has not filed gets a default
       bid: nothing on the products whose price has just fallen, and as before on the others.
    5  show: look at it. undo takes the calculation back, while nothing is told yet. After round 1
       suggest and cutback, where too little was bid.
    6  report all, or report B: each bidder is told its own report, and no other.
    The next round is open then. Prices fell where more was held than the target.
  the end
    Total excess supply is 0: the auction is closed. result has prices and awards; return the box.
    A product above target has price 1, or round 4095 is calculated: the auction is stopped, and has
    no result.
  what the calculation does
    Where a product whose price has just fallen would be left short, withdrawals are retained, the
    lowest exit price of all lots first, and then switches denied, the earliest in the draw first.
    They stay to fill the target until new tranches outbid them: a denied switch is then free
    eligibility, a retained withdrawal, that of the highest exit price first, is gone.
",
];

pub const ORDER: &[&[u8]] = &[
    b"  order
    Does it matter who filed first, or in which order the cards of a round are entered? No.
  cards of different bidders
    Any order leaves the same box, byte for byte, and each card is accepted, or refused with the
    same number, as it would be alone. Nobody gains by filing early or loses by filing late: ties in
    the calculation go by the draw, and by nothing else.
  cards of one bidder
    The last that is accepted stands, as if the earlier ones had not been filed. Only among one
    bidder's own cards does the order matter: enter them as they came.
  a card once more, and a card that is refused
    The card that stands, entered again, leaves the box as it is. An earlier card of the bidder,
    entered again after its correction, takes the place of the correction: the desk says which of
    the two it was. A refused card leaves the box as it is, and is refused wherever it stands.
    What is left of a round's cards is each bidder's last accepted one. The journal has each card
    that changed the box, in the order in which they were entered.
  the order of the products
    The rank of the products favours none where several are short: calculate D0 D1 .. order P0 P1 ..
    goes by any other order, and gives the same answer and the same box (help calculate).
  example, on an issued box
    > open kwh 2 product 2 2 1000 bidder 2 2 row 0 100
    ok
    > bid 1  1 - 0
    ok 08008080000000000000000000000000
    > bid 0  2 - 0
    ok 00008100000000000000000000000000
    > bid 1  2 - 0
    ok 08008100000000000000000000000000
      it takes the place of the card that was filed before
    Bidder 1 bids 2: its later card stands. Bidder 0's might as well be the first or the last of the
    three.
",
];

pub const EXAMPLE: &[&[u8]] = &[
    b"  example, on an issued box: a small auction to type in, without a box file, to try the desk
    One product, 2 tranches wanted, 2 at most to a bidder, from 1.000 cents per kWh. Two bidders may
    bid 2 each. The price falls by 1 percent a round while too much is bid.
    > open kwh 2 product 2 2 1000 bidder 2 2 row 0 100
    ok
    Round 1. Bidder 0 bids 2 tranches, bidder 1 bids 1: one too many, so the price falls to 990.
    > bid 0  2 - 0
    ok 00008100000000000000000000000000
    > bid 1  1 - 0
    ok 08008080000000000000000000000000
    > calculate 1 0
    ok kept 0 outbid 0
    > report 1
    ok open excess 0-20 free 0
      product 0 price 990 going 1 denied 0 retained -
    Round 2, at 990. Bidder 0 keeps 1 tranche and withdraws 1 at 992, bidder 1 withdraws its own at
    995. That would leave the product one short.
    > bid 0  1 1@992 0
    ok 0001008080f800000000000000000000
    > bid 1  0 1@995 0
    ok 0801000080f8c0000000000000000000
    > count
    ok 0
    The lower exit price is retained: bidder 0 keeps both of its tranches, and the auction closes.
    > calculate 0 1
    ok kept 1 outbid 0
    > result
    ok
      product 0 price 992
      bidder 0 2
      bidder 1 0
    > return
    ok
  ./play examples/new-jersey plays a larger one, with remarks.
",
];
