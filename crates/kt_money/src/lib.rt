//! Money in whole cents: rounded quotients, roots, means and deviations, and numbers as text.
#![tactic(auto)]

mod bytes;
mod decimals;
pub mod laws;
mod moments;
mod number_text;
mod quotient;
mod row;
mod share_list;
mod shared;
mod sharing;
mod square_root;
mod weighted;

pub use bytes::{Bytes, OutOfMemory};
pub use decimals::write_plain;
pub use moments::{MeanSd, mean_sd};
pub use number_text::{push_count, push_money, push_ppm};
pub use quotient::{div_half_up, ppm_of};
pub use row::{ROW_BYTES, Row};
pub use share_list::shares;
pub use sharing::ShareOut;
pub use square_root::isqrt;
pub use weighted::weighted_mean_sd;
