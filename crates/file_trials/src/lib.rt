// Saved files and their faults, run through the public calls.
#![tactic(auto)]

#[cfg(test)]
mod example;
#[cfg(test)]
mod faults;
#[cfg(test)]
mod full;
