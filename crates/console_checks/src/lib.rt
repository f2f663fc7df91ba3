// Tests of the console: long runs of calls whose answers were computed elsewhere, lanes at their edges, a full lane,
// and what a refused call leaves.
#![tactic(auto)]

#[cfg(test)]
mod binary_kahan;
#[cfg(test)]
mod binary_symmetric;
#[cfg(test)]
mod decimal_kahan;
#[cfg(test)]
mod edges;
#[cfg(test)]
mod refusals;
#[cfg(test)]
mod rows;
#[cfg(test)]
mod tables;
