//! What always holds of a gate's word, and what each step on it tells.

ghost use Rattle.std.specs.Prelude.{◌≡◌};
ghost use Rattle.wit_gates.specs.Claims.{IsCounted, claim, nothing, unmatched};
ghost use Rattle.wit_gates.specs.Claims.{both_claims, less_one};
ghost use Rattle.wit_gates.specs.Plays.{Comes, HasClaim, Leaves, Rises};
ghost use Rattle.wit_model.specs.declared.locks.Mode.TheVariants.{Shared, Exclusive};

use crate::claim::Claim;
use atomic_table::{Join, Play, Split, TableRule};

/// The claims of all tickets add up to the word.
pub struct Counts;

impl TableRule<(), Claim, ()> for Counts {
    ghost holds = { λ _ s. IsCounted s.words s.views };

    ghost first = { λ _. nothing };
}

/// Who steps has a share, and gives it back.
pub struct LeavesShare;

impl Play<(), Claim> for LeavesShare {
    ghost then = { Leaves Shared };
}

/// Who steps has the exclusive hold, and gives it back.
pub struct LeavesHold;

impl Play<(), Claim> for LeavesHold {
    ghost then = { Leaves Exclusive };
}

/// Who steps knows the word that it met.
pub struct Meets;

impl Play<(), Claim> for Meets {
    ghost then = { λ step before found after. HasClaim (unmatched found) after };
}

/// Who steps has a share from then on.
pub struct Shares;

impl Play<(), Claim> for Shares {
    ghost then = { λ step before found after. HasClaim (claim 1 0) after };
}

/// Who steps has a share where the word was the one expected, and else knows the word that it met.
pub struct TriesShare;

impl Play<(), Claim> for TriesShare {
    ghost then = { Comes (claim 1 0) };
}

/// Who steps has the exclusive hold where the word was the one expected, and else knows the word
/// that it met.
pub struct TriesExclusive;

impl Play<(), Claim> for TriesExclusive {
    ghost then = { Comes (claim 0 1) };
}

/// Who steps has the exclusive hold for its share where the word was the one expected, and else
/// knows the word that it met.
pub struct TriesUpgrade;

impl Play<(), Claim> for TriesUpgrade {
    ghost then = { Rises };
}

/// Who claims two things learns that neither is the exclusive hold.
pub struct Looks;

impl Play<(), Claim> for Looks {
    ghost then = { λ step before found after. (after ≡ before) × (before.0.exclusives ≡ 0) };
}

/// Two claims become one.
pub struct Joined;

impl Join<Claim> for Joined {
    ghost both = { both_claims };

    ghost spent = { nothing };
}

/// A share is taken off a claim.
pub struct Parted;

impl Split<Claim> for Parted {
    ghost left = { λ _. claim 1 0 };

    ghost right = { less_one };
}

/// What was met is taken off a share.
pub struct Told;

impl Split<Claim> for Told {
    ghost left = { λ _. claim 1 0 };

    ghost right = { λ v. unmatched v.met };
}
