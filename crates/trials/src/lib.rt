// Worked examples, run through the public calls.
#![tactic(auto)]

#[cfg(test)]
mod both_books;
#[cfg(test)]
mod codes;
