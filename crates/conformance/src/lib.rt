//! Tests of the library as a program calls it: the lines that the pages show, and calls that no line of vectors can
//! make.
#![tactic(auto)]

#[cfg(test)]
mod columns;
#[cfg(test)]
mod decoders;
#[cfg(test)]
mod filters;
#[cfg(test)]
mod functions;
#[cfg(test)]
mod list_steps;
#[cfg(test)]
mod lists;
#[cfg(test)]
mod messages;
#[cfg(test)]
mod names;
#[cfg(test)]
mod parts;
#[cfg(test)]
mod refusals;
#[cfg(test)]
mod run_tables;
#[cfg(test)]
mod shown;
#[cfg(test)]
mod table_usage;
#[cfg(test)]
mod usage;
