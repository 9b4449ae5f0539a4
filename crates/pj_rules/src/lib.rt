//! Which trees keep the rules on numbers, names and limits. Each function computes one definition exactly.
#![tactic(auto)]

mod counts;
mod fits;
mod limits;
mod mentions;
mod numbering;
mod params;
mod scopeless;
mod twice;

pub use counts::has_few_names;
pub use fits::tree_fits;
pub use limits::{
    block_has_few_arguments, block_is_outside, has_few_arguments, stmt_has_few_arguments,
    stmt_is_outside,
};
pub use mentions::{Mention, mentions_of};
pub use numbering::trees_name_well;
pub use params::params_ok;
pub use scopeless::expr_ok;
