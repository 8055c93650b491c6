// Examples of carriers, at the limits that the rules name.
#![tactic(auto)]

#[cfg(test)]
mod block_cases;
#[cfg(test)]
mod pile_cases;
#[cfg(test)]
mod slot_cases;
