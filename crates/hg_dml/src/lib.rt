//! What INSERT, UPDATE and DELETE make of a table. It stands on `hg_table`, `hg_run`, `hg_catalog`, `hg_bind` and
//! `hg_expr` (and `hg_base`, `hg_model`, `hg_value`). The contracts that the layers above use are those of
//! [`insert`], [`update`] and [`delete`], which take a bound statement, and of [`insert_rows`], [`update_rows`] and
//! [`delete_rows`] below them, which take its parts where they lie and are lent the room for rows.
//!
//! ```text
//! INSERT  values of all rows -- NULL where it is not allowed, by columns --> 12
//!                            -- what does not fit its column, by columns --> 11
//!                            -- more than 1,000 coded bytes, by rows     --> 23
//!         row by row         -- coded into the kept row, put at the end of the table --> a fault
//!
//! UPDATE  version by version, as the last stamp before this one sees them, in the order of the pages:
//!         read into the kept row -- it does not fit the columns          --> damaged
//!                                -- the condition is not true            --> stays
//!                                -- else its new row is put into a run, and it dies under the stamp --> a fault
//!         the causes of all new rows, as above                           --> 12, 11, 23
//!         record by record   -- read from the run, put at the end of the table --> a fault
//!         the run's pages are given back, whatever came
//!
//! DELETE  version by version, in the same way: a row whose condition is true dies under the stamp
//!
//! all     the stamp          -- committed: from now on everyone sees the change
//! ```
//!
//! An INSERT's rows are looked at whole before a page is touched: a refused one touches no page and no
//! device. An UPDATE and a DELETE walk once and kill as they go: a death under a stamp that is not committed is
//! not seen, so the walk sees the table as it stood, and a version killed by a change that was refused stays
//! visible. Since an UPDATE's new rows wait on temporary pages, it reads none that it wrote. A row takes one
//! pin to be found and read, and one more to be killed, both of the page that the walk is on. Nothing here
//! takes memory.
#![tactic(auto)]

mod causes;
mod changing;
mod deletion;
mod edges;
mod ending;
mod filter;
mod insertion;
mod making;
mod putting;
mod storing;
mod tuples;
mod updating;

pub use deletion::delete_rows;
pub use edges::{delete, insert, update};
pub use filter::{Filter, list_numbers};
pub use insertion::{ChangeError, insert_rows};
pub use updating::{ChangeRoom, Sets, update_rows};
