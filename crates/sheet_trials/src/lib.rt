// The sheet's own calls at the edges of the rules.
#![tactic(auto)]

#[cfg(test)]
mod codes;
#[cfg(test)]
mod full;
#[cfg(test)]
mod on_pages;
#[cfg(test)]
mod opened;
