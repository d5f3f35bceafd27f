// Worked sheets, matched through the public call.
#![tactic(auto)]

#[cfg(test)]
mod sets;
#[cfg(test)]
mod sheets;
