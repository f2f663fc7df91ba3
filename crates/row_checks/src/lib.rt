// Tests of tables of rows, with every code and every outcome: tables whose answers were computed elsewhere.
#![tactic(auto)]

#[cfg(test)]
mod binary_kahan;
#[cfg(test)]
mod binary_symmetric;
#[cfg(test)]
mod decimal_kahan;
#[cfg(test)]
mod tables;
