// The ground of the house: kinds, refusals and the interface of a ruling. The definitions are in specs/.
#![tactic(auto)]

mod compare;
mod fitting;
mod kind_list;
mod kinds;
mod layer;
mod refusal;
mod ruling;

pub use compare::{check_same_kinds, kinds_of, ranks_of};
pub use fitting::fits_rank;
pub use kind_list::{check_leaf_kind, check_opening, check_ranks, padded};
pub use kinds::Kinds;
pub use layer::Layer;
pub use refusal::{Notice, Refusal};
pub use ruling::Ruling;
