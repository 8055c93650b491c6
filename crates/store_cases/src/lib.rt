// Examples of the tag store, at the limits that the rules name.
#![tactic(auto)]

#[cfg(test)]
mod store_cases;
