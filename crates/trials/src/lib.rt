// Examples of what the other crates do, as tests: a crate that has tests of its own is proved twice, so the many stand here.
#![tactic(auto)]

#[cfg(test)]
mod checkpoints;
#[cfg(test)]
mod messages;
#[cfg(test)]
mod reading;
#[cfg(test)]
mod replicas;
#[cfg(test)]
mod selling;
#[cfg(test)]
mod tables;
#[cfg(test)]
mod timestamps;
