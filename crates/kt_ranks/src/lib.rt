//! The totals and the maxima that tables take of the cells of a summary, the losses of the ranks that an exceedance curve asks for,
//! and the rows of one curve.
#![tactic(auto)]

mod amount_list;
mod amounts;
mod exceedance;
mod ranks;
mod row_amounts;

pub use amount_list::AmountList;
pub use amounts::{add_periods, kind_amounts, samples_down};
pub use exceedance::{append_rows, append_values};
pub use ranks::{append_ranked, put_losses, ranks_of};
