//! Values in bytes: rows, and the keys by which indexes, joins and groups find them. It stands on
//! the base crate and on the model's values. A row is seen as the list of its values; the contract
//! that the layers above use is that of [`Row::read`] and [`Row::bytes`], and that keys compare byte
//! by byte as values do ([`index_keys_compare`], [`keys_compare`]). Nothing here takes memory.
#![tactic(auto)]

mod columns;
mod decode;
mod encode;
mod hashing;
mod keys;
mod laws;
mod look;
mod order;
mod room;
mod row;
#[cfg(test)]
mod tests;

pub use columns::Unread;
pub use hashing::hash;
pub use keys::{push_index_key, push_key};
pub use laws::{codings_tell, index_keys_compare, keys_are_as_long, keys_compare};
pub use look::Look;
pub use order::compare;
pub use row::Row;
