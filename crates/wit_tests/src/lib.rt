//! What the cases of `tests/` can't show: libraries that are called as no trace calls them, and
//! replays over readers and writers that fail, or that show and take few bytes at a time. They
//! stand in a crate of their own, since the tests of a crate prove all of its functions a second
//! time.
#![tactic(auto)]

#[cfg(test)]
mod adoptions;
#[cfg(test)]
mod all_held;
#[cfg(test)]
mod chains;
#[cfg(test)]
mod chunks;
#[cfg(test)]
mod ends;
#[cfg(test)]
mod fakes;
#[cfg(test)]
mod flushes;
#[cfg(test)]
mod lines;
#[cfg(test)]
mod matrices;
#[cfg(test)]
mod pools;
#[cfg(test)]
mod prepared;
#[cfg(test)]
mod refusals;
#[cfg(test)]
mod sizes;
#[cfg(test)]
mod streams;
#[cfg(test)]
mod tables;
#[cfg(test)]
mod texts;
#[cfg(test)]
mod traces;
#[cfg(test)]
mod verifiers;
