// Files of worked sheets and their reports.
#![tactic(auto)]

#[cfg(test)]
mod files;
