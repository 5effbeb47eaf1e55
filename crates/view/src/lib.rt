// Answers and the state as lines of text, put into an answer that is lent. The first line of an answer begins at the margin, further
// lines with two spaces. Each function gives the place after what it put.
#![tactic(auto)]

mod answer;
mod bidding;
mod form;
mod lots;
mod price;
mod refusal;
mod round;
mod state;

pub use answer::{bid, put_reported, report, result};
pub use bidding::put_filed;
use form::put_line;
pub use form::{BIDDER, PRODUCT, put_form};
pub use lots::put_lots;
pub use price::{put_amount, put_points, put_price, put_unit};
pub use refusal::put_refused;
pub use round::{
    is_open, put_back, put_calculated, put_cut, put_missing, put_now, put_opened, put_waiting,
};
use rules::Phase;
pub use state::{card, cards, show};
use text::{ANSWER, put};

// `ok PHASE`, without its end.
fn put_phase(out: &mut [u8; ANSWER], phase: Phase) -> usize {
    match phase {
        Phase::Issued => put(out, 0, b"ok issued"),
        Phase::Open => put(out, 0, b"ok open"),
        Phase::Closed => put(out, 0, b"ok closed"),
        Phase::Stopped => put(out, 0, b"ok stopped"),
    }
}
