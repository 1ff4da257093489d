//! Cases of sheets: each refusal at its first and at its last possible word, two faults at once, and the longest sheet.
#![tactic(auto)]

#[cfg(test)]
mod tests;
#[cfg(test)]
mod writing;
