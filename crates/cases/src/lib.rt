// Examples of the public calls, at the limits that the rules name. A crate of tests is proved twice, so they stand apart.
#![tactic(auto)]

#[cfg(test)]
mod bytes_cases;
#[cfg(test)]
mod carrier_cases;
#[cfg(test)]
mod number_cases;
#[cfg(test)]
mod text_cases;
#[cfg(test)]
mod traceparent_cases;
#[cfg(test)]
mod tracestate_cases;
