// A box's state in a file: read whole, and written anew under another name that is then put in place; a copy of it before what cannot be
// undone; and the journal of the calls.
#![tactic(auto)]

mod boxed;
mod files;
mod journal;
mod names;
mod reason;
mod saving;
mod system;

pub use boxed::{
    Kind, Outcome, Undo, copy_before, is_beside, is_wrong, keep, load_names, number_on,
    open_journal,
};
pub use files::{Filled, Loaded, load};
pub use journal::{SUM, fits, no_sum, sum_at};
pub use reason::{EINVAL, ENAMETOOLONG, put_reason};
pub use saving::{Act, drop_names, save_names, seen};
pub use system::{Numbered, open_read};
