//! How the log's keeper and a seat follow what a call did to the verifier.

ghost use Rattle.std.specs.Prelude.{◌≡◌, ℕ, List, [], ◌∷◌, ◌++◌};
ghost use Rattle.wit_model.specs.Rules.History.{own_entries};
ghost use Rattle.wit_seats.specs.Rule.{journal, IsOutside};
ghost use Rattle.wit_seats.specs.Seats.{AreFiles, Grows, Entered};

use std::marker::Brand;
use wit_core::Verifier;
use wit_model::FileNo;
use wit_seats::{LogKeeper, Room, Seat, VerifierStep};

// Follows any step that left this verifier.
fn follow_as<J: Room, E: VerifierStep>(
    keeper: &mut LogKeeper<J>,
    verifier: &Verifier,
    seat: &mut Seat<J>,
)
    requires after { E.after ≡ verifier.now }
    requires start { verifier.now.start ≡ J.start }
    requires grows { Grows keeper.old seat.old.seat verifier.now }
    requires named { AreFiles verifier.now.files E.given }
    ensures kept { keeper.new ≡ journal verifier.now.history verifier.now.files keeper.old.handed }
    ensures entered { Entered J.start E.given keeper.old.entries keeper.old.files verifier.now
        seat.old seat.new }
{
    // Called for its clause that the log is legal.
    let _log = verifier.history();
    keeper.enter_as::<E>(seat);
}

// Follows a call that gave its seat no file.
pub(crate) fn follow<J: Room>(keeper: &mut LogKeeper<J>, verifier: &Verifier, seat: &mut Seat<J>)
    requires start { verifier.now.start ≡ J.start }
    requires grows { Grows keeper.old seat.old.seat verifier.now }
    ensures kept { keeper.new ≡ journal verifier.now.history verifier.now.files keeper.old.handed }
    ensures entered { Entered J.start [] keeper.old.entries keeper.old.files verifier.now
        seat.old seat.new }
{
    follow_as::<J, Brand>(keeper, verifier, seat);
}

// Follows any step that left this verifier and gave its seat this file.
fn follow_file_as<J: Room, E: VerifierStep>(
    keeper: &mut LogKeeper<J>,
    verifier: &Verifier,
    seat: &mut Seat<J>,
    file: FileNo,
    name: &[u8],
)
    requires after { E.after ≡ verifier.now }
    requires given { E.given ≡ (file, name.now) ∷ [] }
    requires start { verifier.now.start ≡ J.start }
    requires grows { Grows keeper.old seat.old.seat verifier.now }
    requires named { AreFiles verifier.now.files ((file, name.now) ∷ []) }
    ensures kept { keeper.new ≡ journal verifier.now.history verifier.now.files keeper.old.handed }
    ensures entered { Entered J.start ((file, name.now) ∷ []) keeper.old.entries keeper.old.files
        verifier.now seat.old seat.new }
{
    let (_file, _name) = (file, name);
    follow_as::<J, E>(keeper, verifier, seat);
}

// Follows a call that gave its seat a file.
pub(crate) fn follow_file<J: Room>(
    keeper: &mut LogKeeper<J>,
    verifier: &Verifier,
    seat: &mut Seat<J>,
    file: FileNo,
    name: &str,
)
    requires start { verifier.now.start ≡ J.start }
    requires grows { Grows keeper.old seat.old.seat verifier.now }
    requires named { AreFiles verifier.now.files ((file, name.now) ∷ []) }
    ensures kept { keeper.new ≡ journal verifier.now.history verifier.now.files keeper.old.handed }
    ensures entered { Entered J.start ((file, name.now) ∷ []) keeper.old.entries keeper.old.files
        verifier.now seat.old seat.new }
{
    follow_file_as::<J, Brand>(keeper, verifier, seat, file, name.as_bytes());
}

// Follows any step that left this verifier and made no entry.
fn look_as<J: Room, E: VerifierStep>(keeper: &mut LogKeeper<J>, verifier: &Verifier)
    requires after { E.after ≡ verifier.now }
    requires none { E.given ≡ [] }
    requires same { verifier.now.history ≡ keeper.old.entries }
    requires longer { (more : List (List ℕ)) × (verifier.now.files ≡ keeper.old.files ++ more) }
    ensures kept { keeper.new ≡ journal verifier.now.history verifier.now.files keeper.old.handed }
    ensures outside { (number : ℕ) → IsOutside keeper.old.handed number
        → own_entries number keeper.old.entries ≡ [] }
{
    let _verifier = verifier;
    keeper.follow_as::<E>();
}

// Looks at a verifier that has logged nothing since, and learns that nobody has entries who has no
// seat here.
pub(crate) fn look<J: Room>(keeper: &mut LogKeeper<J>, verifier: &Verifier)
    requires same { verifier.now.history ≡ keeper.old.entries }
    requires longer { (more : List (List ℕ)) × (verifier.now.files ≡ keeper.old.files ++ more) }
    ensures kept { keeper.new ≡ journal verifier.now.history verifier.now.files keeper.old.handed }
    ensures outside { (number : ℕ) → IsOutside keeper.old.handed number
        → own_entries number keeper.old.entries ≡ [] }
{
    look_as::<J, Brand>(keeper, verifier);
}
