// Tests of the words of a text: which are numbers and lanes, and what they read as.
#![tactic(auto)]

#[cfg(test)]
mod words;
