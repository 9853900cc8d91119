// Examples of what the layers do, as tests.
#![tactic(auto)]

#[cfg(test)]
mod admission_tests;
#[cfg(test)]
mod faults_tests;
#[cfg(test)]
mod form_tests;
#[cfg(test)]
mod quantities_tests;
#[cfg(test)]
mod words_tests;
