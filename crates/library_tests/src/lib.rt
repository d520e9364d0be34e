//! Tests of what no run of the program shows: streams and files, algorithm numbers, places in random words, and a secure
//! element that is full. They stand above the crates that they test, so that none is proved once more for its tests.
#![tactic(auto)]

#[cfg(test)]
mod adapters;
#[cfg(test)]
mod algorithm_numbers;
#[cfg(test)]
mod elements;
#[cfg(test)]
mod random_words;
