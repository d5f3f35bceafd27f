// Pages in text, run from input to output.
#![tactic(auto)]

#[cfg(test)]
mod bad_lines;
#[cfg(test)]
mod lengths;
#[cfg(test)]
mod slips;
