//! Calls of the libraries that the program never makes. Each succeeds here: no contract says that
//! memory suffices for it. `./test --prove` also refuses each allocation of these tests in turn,
//! one in a run. Where memory is wanting a test makes its call again, which has to succeed then.
#![tactic(auto)]

#[cfg(test)]
mod agents;
#[cfg(test)]
mod commands;
#[cfg(test)]
mod endings;
#[cfg(test)]
mod fleets;
#[cfg(test)]
mod graphs;
#[cfg(test)]
mod letters;
#[cfg(test)]
mod runs;
#[cfg(test)]
mod texts;
#[cfg(test)]
mod values;
