// The pieces of a page: text that is escaped, prices, names, what is known of each round, and the charts made of it. Each function gives
// the place after what it put.
#![tactic(auto)]

mod brief;
mod charts;
mod form;
mod series;
mod titles;

pub use brief::put_brief;
pub use charts::{put_held_charts, put_price_chart};
pub use form::{
    escape, fill, flush, is_lost, lost, one, plural, put_counted, put_file_name, put_points,
    put_price, put_unit, room,
};
pub use series::{
    ROUNDS, SERIES, calculated, held_at, is_cut, note, note_prices, place_at, price_at,
};
pub use titles::{put_bidder, put_product, read_names};
