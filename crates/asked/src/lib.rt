// What is typed after a command's word: plain numbers, a card's bytes, settings, bid lines, overrides, a cutback. What is wrong is put into the lent
// answer, with its column, and the length of that is handed back.
#![tactic(auto)]

mod bidding;
mod cutting;
mod lots;
mod numbers;
mod opening;
mod overriding;

pub use bidding::{Bid, card, groups, other_groups};
pub use cutting::{Revised, other_pairs, pairs, revised_of};
pub use numbers::{Numbers, One, draw_of, ends, one_byte, one_number, two_bytes};
pub use opening::{Opening, settings};
pub use overriding::{Drawn, draw};
