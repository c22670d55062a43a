//! Trials over devices that fail: each call of a device fails in turn, under a whole script and under the
//! insertions of an ordered tree, and what was answered then is compared with a plain list of what stands.
//! A trial of a heap whose pages move.
//! And trials over clean devices: SELECTs of all forms, whose rows are compared with those of the slow
//! evaluator over the same tables, and small scripts with the replies that were worked out by hand.
//! It stands on all that a script runs through (`hg_serve` and what is below it), on the slow evaluator
//! (`hg_slow`), on the pool (`hg_pool`), on the ordered tree (`hg_btree`) and on the heap's pages (`hg_reloc`).
//!
//! It has tests alone and no public function, so no contract of its own, and no edits that a check must
//! refuse. What the tests show by example for some scripts is proved for all of them in the crates below.
//!
//! ```text
//! script_trials    script (`script`) --> engine over a device whose k-th call fails --> replies
//!                                                                                          |
//!                  lists of the rows that stand (`standing`) <---- line by line -----------+
//!
//! change_trials    script of changes (`changes`) --> engine over devices of which one call fails --> replies,
//!                  compared line by line with a list of the rows that stand
//!
//! heap_trials      5,000 rows and directories of them in a heap of a plain space, whose pages go to other frames
//!                  behind every 500 rows --> read back along both ways, and drained
//!
//! tree_trials      400 insertions, pool of 16 frames over such a device --> walked beside a sorted list
//!
//! selects          lines --> engine over clean devices (`clean_run`) --> replies
//!                    |                                                      |
//!                    +-----> lists of rows (`plain_tables`) --> replies <---+ compared (`answers`)
//!
//! rows             scripts --> engine over clean devices --> replies, compared with those worked by hand
//! ```
#![tactic(auto)]

#[cfg(test)]
mod answers;
#[cfg(test)]
mod change_trials;
#[cfg(test)]
mod changes;
#[cfg(test)]
mod clean_run;
#[cfg(test)]
mod counted;
#[cfg(test)]
mod engine_run;
#[cfg(test)]
mod heap_trials;
#[cfg(test)]
mod plain_tables;
#[cfg(test)]
mod rows;
#[cfg(test)]
mod script;
#[cfg(test)]
mod script_trials;
#[cfg(test)]
mod selects;
#[cfg(test)]
mod standing;
#[cfg(test)]
mod tree_trials;
