//! What no contract says of threads that share a verifier, and locks that it watches: that their
//! calls go through, whose entries the log then has, and that it comes back; and what locks ask of
//! gates that count their calls, refuse, or wait for another thread. The tests stand in a crate of
//! their own, since the tests of a crate prove all of its functions a second time.
#![tactic(auto)]

#[cfg(test)]
mod all_held;
#[cfg(test)]
mod alone;
#[cfg(test)]
mod asking;
#[cfg(test)]
mod closing;
#[cfg(test)]
mod crossing;
#[cfg(test)]
mod exhausting;
#[cfg(test)]
mod fakes;
#[cfg(test)]
mod guarding;
#[cfg(test)]
mod observing;
#[cfg(test)]
mod refusing;
#[cfg(test)]
mod sharing;
#[cfg(test)]
mod showing;
#[cfg(test)]
mod threads;
#[cfg(test)]
mod tokens;
#[cfg(test)]
mod verifiers;
