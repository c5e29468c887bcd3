//! A world that is kept.

ghost use Rattle.std.specs.Prelude.{◌≡◌, ◌<◌, ◌^◌, [], replicate, length, is_some, true, IfOk};
ghost use Rattle.std.specs.Prelude.{IfErr};
ghost use Rattle.wit_model.specs.Rules.Files.{NamesFile};
ghost use Rattle.wit_model.specs.Rules.History.{is_held};
ghost use Rattle.wit_model.specs.Rules.State.{state_of, is_seat};
ghost use Rattle.wit_model.specs.World.Scenes.{opening, stage_at};
ghost use Rattle.wit_world.specs.Stages.{stage_of};
ghost use Rattle.wit_world.specs.Kept.{IsKept};
ghost use Rattle.wit_world.specs.declared.stages.Stage.TheVariants as kept;

use crate::raw::Raw;
use crate::stages::Stage;
use std::alloc::{AllocError, Global};
use std::marker::Model;
use wit_core::Verifier;
use wit_model::{Fault, FileNo, LockNo, SeatNo};

/// A verifier, and beside it which shares of the locks themselves each seat has and where it stands
/// in its sequence of steps.
///
/// Clauses see it as a scene. Whatever is done to it, it shows a world: a list of steps of which
/// each could be done when it came.
#[derive(Drop)]
pub struct World {
    pub(crate) alloc: Global,
    pub(crate) verifier: Verifier,
    pub(crate) raw: Raw,
    /// Where each seat stands.
    pub(crate) stages: Vec<Stage>,
}

impl Model for World {
    ghost use Rattle.wit_model.specs.World.Scenes.{Scene};

    ghost Value = { Scene };

    ghost use Rattle.wit_world.specs.Kept.{scene_in, IsKept};

    ghost view = { scene_in };

    ghost invariant = { λ v. IsKept (scene_in v) };
}

/// A verifier of which no world is kept, for want of memory, as it was.
#[derive(Drop)]
pub struct Unkept {
    /// The verifier.
    pub verifier: Verifier,
}

impl World {
    /// The world of a verifier that has logged nothing: nobody has a share, and no sequence has
    /// begun.
    ///
    /// # Errors
    /// Want of memory alone; the verifier comes back.
    pub fn new(alloc: Global, verifier: Verifier) -> Result<World, Unkept>
        requires { verifier.history ≡ [] }
        ensures ok { IfOk result (λ w. w ≡ opening verifier) }
        ensures err { IfErr result (λ u. u.verifier ≡ verifier) }
    {
        match all_over(alloc, verifier.seats()) {
            Ok(stages) => Ok(World {
                alloc,
                verifier,
                raw: Raw::new(alloc),
                stages,
            }),
            Err(_) => Err(Unkept { verifier }),
        }
    }

    /// The verifier. What is asked of it changes nothing: its assertions and warnings are no steps.
    pub fn verifier(&self) -> &Verifier
        ensures story { result.now ≡ self.now.story }
        ensures world { IsKept self.now }
    {
        &self.verifier
    }

    /// The number of a source file: `Verifier::file`, with its errors. Nothing else is changed.
    ///
    /// # Errors
    /// `BadName`, `FilesFull`, or `OutOfMemory` where the file is new.
    pub fn file(&mut self, name: &str) -> Result<FileNo, Fault>
        ensures story { NamesFile self.old.story name.now result self.new.story }
        ensures rest { self.new ≡ record self.old { story = self.new.story } }
    {
        self.verifier.file(name)
    }
}

impl World {
    pub(crate) fn is_seat(&self, seat: SeatNo) -> bool
        ensures { result ≡ is_seat (state_of self.now.story) seat.0 }
    {
        0 < seat.0 && seat.0 <= self.verifier.seats()
    }

    // Where a seat stands.
    pub(crate) fn stage(&self, seat: SeatNo) -> Stage
        requires { is_seat (state_of self.now.story) seat.0 ≡ true }
        ensures { stage_of result ≡ stage_at self.now seat.0 }
    {
        self.stages[seat.0 as usize - 1]
    }

    // Whether a seat holds a lock by the record.
    pub(crate) fn is_held(&self, seat: SeatNo, lock: LockNo) -> bool
        requires { is_seat (state_of self.now.story) seat.0 ≡ true }
        ensures { result ≡ is_held seat.0 lock.0 self.now.story.history }
    {
        self.verifier.recorded(seat, lock).is_some()
    }

    // How many entries the log has.
    pub(crate) fn entries(&self) -> usize
        ensures count { result ≡ length self.now.story.history }
        ensures few { result < 2 ^ 63 }
        ensures world { IsKept self.now }
    {
        self.verifier.history().len()
    }
}

// So many seats of which no sequence has begun.
fn all_over(alloc: Global, seats: u16) -> Result<Vec<Stage>, AllocError>
    ensures { IfOk result (λ v. v.items ≡ replicate seats kept.Over) }
{
    let mut stages = Vec::new(alloc);
    for _seat in 0..seats {
        stages.push(Stage::Over)?;
    }
    Ok(stages)
}
