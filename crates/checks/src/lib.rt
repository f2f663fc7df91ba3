// Tests of the arithmetic on integers and of the methods over it: answers that were computed elsewhere, the edges of
// what figures can be, and what the methods refuse.
#![tactic(auto)]

#[cfg(test)]
mod binary;
#[cfg(test)]
mod binary_kahan;
#[cfg(test)]
mod binary_symmetric;
#[cfg(test)]
mod decimal;
#[cfg(test)]
mod decimal_kahan;
#[cfg(test)]
mod edges;
#[cfg(test)]
mod fours;
#[cfg(test)]
mod rows;
#[cfg(test)]
mod tables;
