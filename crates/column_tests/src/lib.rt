//! Tests of the crates below run columns, where no line of vectors makes the call: bits, flat columns, the texts of
//! errors, metadata records, floats by their bits, logical types, and the allocator that refuses.
#![tactic(auto)]

#[cfg(test)]
mod bits;
#[cfg(test)]
mod errors;
#[cfg(test)]
mod exact_sums;
#[cfg(test)]
mod flat_calls;
#[cfg(test)]
mod float_patterns;
#[cfg(test)]
mod formats;
#[cfg(test)]
mod parts;
#[cfg(test)]
mod records;
#[cfg(test)]
mod refusals;
#[cfg(test)]
mod units;
