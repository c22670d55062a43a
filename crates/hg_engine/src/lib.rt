//! The engine: tables of versions in a space of pages, the stamps of its changes, and the SELECT at work.
//! It stands on tables (`hg_table`), what changes them (`hg_dml`), the catalog (`hg_catalog`), the binder
//! (`hg_bind`), plans and loops of SELECTs (`hg_plan`, `hg_exec`), the pool of frames (`hg_pool`) and the seam to
//! scripts (`hg_reply`).
//!
//! ```text
//! a command where it lies -- bound by the catalog --> a refusal
//!                         -- CREATE TABLE --> one more table in the catalog
//!                         -- INSERT       --> rows on pages, under a stamp
//!                         -- UPDATE       --> rows that die and rows in their place, under a stamp
//!                         -- DELETE       --> rows that die, under a stamp
//!                         -- SELECT       --> planned; loops at work, of which each turn gives the next row
//!                         -- POOL         --> other frames in use
//! ```
//!
//! The contract used above is that of [`Engine`]: one call is one small step of the plain machine over
//! the engine's own state, exactly so where its devices tell what stands on their pages, and loosely where
//! they do not.
#![tactic(auto)]

mod create;
mod delete;
mod engine;
mod first;
mod insert;
mod kept;
mod open;
mod say;
mod select;
mod tables;
mod update;

pub use engine::{Devices, Engine};
pub use hg_pool::Config;
pub use hg_reply::{Machine, Next, Reply};
