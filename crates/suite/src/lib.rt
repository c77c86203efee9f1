// Tests of the crates below, by subject: every test is proved to be safe and to end, and then run.
#![tactic(auto)]

#[cfg(test)]
mod books;
#[cfg(test)]
mod codes;
#[cfg(test)]
mod faults;
#[cfg(test)]
mod files;
#[cfg(test)]
mod processes;
#[cfg(test)]
mod reading;
#[cfg(test)]
mod samples;
#[cfg(test)]
mod scales;
