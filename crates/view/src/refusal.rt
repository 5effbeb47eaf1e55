// `refused N WORDS`: a refusal's number, and the words of documents 01 and 02 for it.
use crate::{put_form, put_line};
use text::ANSWER;

// Line N is refusal N's; a number that no call gives has no words. The line's end is left to what is put after it.
pub fn put_refused(out: &mut [u8; ANSWER], n: u8) -> usize {
    let a = put_line(
        out,
        b"refused 0\n\
refused 1 state length wrong\n\
refused 2 state neither issued nor standing\n\
refused 3 bids not open\n\
refused 4 card length wrong\n\
refused 5 filling bits not zero\n\
refused 6 no such bidder\n\
refused 7 other round\n\
refused 8 some b + d + r above the product cap\n\
refused 9 a reduction on a product that didn't tick\n\
refused 10 sum of b above sum of g + f\n\
refused 11 withdrawn above R on a product, or total not w\n\
refused 12 withdrawn > 0 and exit not in p < x <= q; or withdrawn = 0 and exit not 0; or lots out of order\n\
refused 13 s > 0 and increased products not numbered 1 to k once each, others 0; or s = 0 and a priority not 0\n\
refused 14 draw order wrong\n\
refused 15 a setting outside the limits\n\
refused 16 auction not closed\n\
refused 17 a state byte isn't zero\n\
refused 18 open in round 1\n\
refused 19 an override outside 1 to 1,000\n\
refused 20 a condition on the cutback not met\n\
refused 21\n\
refused 22\n\
refused 23 the product order isn't each product once\n\
refused 24\n\
refused 25\n\
refused 26\n\
refused 27\n\
refused 28\n\
refused 29 product count not 1 to 8\n\
refused 30 a field too large for its bits, or not 0 past the count\n\
refused 31 a ratio of 0, or more than 51,200 tranches bid\n",
        n as usize,
    );
    if 0 < a {
        return a;
    }
    let numbers = [n as u64];
    put_form(out, 0, b"refused #", &numbers)
}
