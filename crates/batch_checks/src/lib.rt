// Tests of batches: texts and lines whose reports were computed elsewhere, and what a batch leaves of its console.
#![tactic(auto)]

#[cfg(test)]
mod cases;
#[cfg(test)]
mod leavings;
#[cfg(test)]
mod outputs_told;
#[cfg(test)]
mod rows;
#[cfg(test)]
mod tables;
