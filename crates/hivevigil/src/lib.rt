//! Run-end encoded columns for C, C++, Rust, Python and whatever speaks Arrow: the calls, by what they are for. Each
//! takes columns out of the handles that it is lent, asks one function of `c_columns`, and puts them back.
//! `include/hivevigil.h` says what each call answers, who owns what, and what a caller owes.
#![tactic(auto)]

mod casts;
mod commands;
mod constants;
mod decimals;
mod encodings;
mod flat;
mod floats;
mod formats;
mod groups;
mod lists;
mod messages;
mod numbers;
mod pairs;
mod questions;
mod reads;
mod run_reads;
mod runs;
mod sizes;
mod sorts;
mod sums;
mod table_calls;
mod table_rows;
mod texts;
mod versions;
mod windows;
