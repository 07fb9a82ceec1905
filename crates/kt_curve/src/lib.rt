//! The tables of period totals and maxima: average annual loss and exceedance curves.
#![tactic(auto)]

mod average;
mod kinds;
pub mod laws;
mod lec;
mod mean_curves;
mod rank_curves;
mod sample_amounts;
mod sample_losses;
mod set_curves;

pub use average::{aal_heading, aal_text};
pub use kt_rec::Curve;
pub use lec::{lec_heading, lec_text, takes_maxima};
pub use set_curves::SetCurves;
