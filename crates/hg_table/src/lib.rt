//! Tables of versions on slotted pages, and the stamps that order them. A table is seen as its pages
//! and its versions in order of pages and slots (`IsTable`); what a snapshot sees of them is the
//! filter of `hg_model`. It stands on `hg_base`, `hg_slot`, `hg_value` and `hg_model`; the contract
//! that the layers above use is that of [`TableCalls`].
#![tactic(auto)]

mod calls;
mod insertion;
mod kill;
mod open;
mod reading;
mod seeking;
mod stamping;
mod stored;
#[cfg(test)]
mod tests;
mod walk;

pub use calls::TableCalls;
pub use stamping::Stamps;
