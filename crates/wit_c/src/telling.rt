//! What a verifier tells in a buffer.

ghost use Rattle.std.specs.Prelude.{◌≡◌, IfOk, map};
ghost use Rattle.std.specs.Option.{option_copied, option_map};
ghost use Rattle.wit_model.specs.declared.locks.TypeNo.{TypeNo};
ghost use Rattle.wit_model.specs.declared.locks.SeatNo.{SeatNo};
ghost use Rattle.wit_model.specs.Rules.Circles.{seat_numbers};
ghost use Rattle.wit_model.specs.Rules.State.{state_of};
ghost use Rattle.wit_model.specs.Trace.Views.{circle_text};
ghost use Rattle.wit_c.specs.Structures.{last_path, path_told, held_told};
ghost use Rattle.wit_c.specs.Structures.{lock_name, type_name, file_name};
ghost use Rattle.wit_c.specs.Texts.{IsTold, IsToldOrFails};
ghost use Rattle.wit_c.specs.Views.{last_text, locks_text, all_locks_text, graph_text};
ghost use Rattle.wit_c.specs.Views.{TellsWarning, path_types, TellsAssertion, TellsSeats};
ghost use Rattle.wit_c.specs.Views.{TellsCircleText};

use crate::kept_verifier::KeptVerifier;
use crate::numbers::{count_number, fault_number, lock_in};
use crate::structures::{HeldTold, OrderTold, add_held, steps_told, type_of};
use std::alloc::{AllocError, Global};
use wit_model::{Fault, FileNo, LockAssert, LockNo, Reply, SeatNo, TypeNo, WarnFlags};
use wit_report::{
    all_locks, assert_text, circle_text, graph, locks_of, newest_first, report_text, warn_text,
};

// Puts as much into a buffer as it has room for, and tells how much there is.
fn tell<T: Copy>(all: &[T], to: &mut [T]) -> i64
    ensures { IsTold all.now to.old result to.new }
{
    let room = all.len().min(to.len());
    to[..room].copy_from_slice(&all[..room]);
    count_number(all.len())
}

impl KeptVerifier {
    /// What the last answer reports.
    pub(crate) fn tell_last(&self, alloc: Global, to: &mut [u8]) -> i64
        ensures { IsToldOrFails (last_text self.now) to.old result to.new }
    {
        let Ok(reply) = &self.last else {
            return 0;
        };
        match report_text(alloc, &self.verifier, reply) {
            Ok(text) => tell(text.as_bytes(), to),
            Err(fault) => fault_number(fault),
        }
    }

    /// The orders that it goes against.
    pub(crate) fn tell_last_path(&self, alloc: Global, to: &mut [OrderTold]) -> i64
        ensures { IsToldOrFails (last_path self.now) to.old result to.new }
    {
        let Ok(Reply::Reversal(conflict)) = &self.last else {
            return 0;
        };
        let conflict = conflict.get();
        let asked = type_of(&self.verifier, conflict.asked.lock);
        let held = type_of(&self.verifier, conflict.held.lock);
        self.tell_steps(alloc, asked, held, to)
    }

    // The orders that lead from one type to another.
    fn tell_steps(&self, alloc: Global, first: TypeNo, last: TypeNo, to: &mut [OrderTold]) -> i64
        ensures { IsToldOrFails (path_told self.now.verifier first.0 last.0) to.old result to.new }
    {
        let types = match self.verifier.path(first, last) {
            Ok(Some(types)) => types,
            Ok(None) => return 0,
            Err(fault) => return fault_number(fault),
        };
        match steps_told(alloc, &self.verifier, &types) {
            Ok(steps) => tell(&steps, to),
            Err(_) => fault_number(Fault::OutOfMemory),
        }
    }

    /// Which locks a seat holds, as numbers.
    pub(crate) fn tell_held(&self, alloc: Global, seat: SeatNo, to: &mut [HeldTold]) -> i64
        ensures { IsToldOrFails (held_told seat.0 self.now) to.old result to.new }
    {
        match self.all_held(alloc, seat) {
            Ok(held) => tell(&held, to),
            Err(_) => fault_number(Fault::OutOfMemory),
        }
    }

    fn all_held(&self, alloc: Global, seat: SeatNo) -> Result<Vec<HeldTold>, AllocError>
        ensures { IfOk result (λ held. held.items ≡ held_told seat.0 self.now) }
    {
        let mut all = Vec::new(alloc);
        let sleep = newest_first(alloc, &self.verifier, seat, false)?;
        add_held(&mut all, &self.verifier, &sleep)?;
        let spin = newest_first(alloc, &self.verifier, seat, true)?;
        add_held(&mut all, &self.verifier, &spin)?;
        Ok(all)
    }

    /// The name of a lock.
    pub(crate) fn tell_lock_name(&self, lock: LockNo, to: &mut [u8]) -> i64
        ensures { IsTold (lock_name lock.0 self.now) to.old result to.new }
    {
        tell(self.verifier.lock_name(lock).unwrap_or("").as_bytes(), to)
    }

    /// The name of a type.
    pub(crate) fn tell_type_name(&self, number: TypeNo, to: &mut [u8]) -> i64
        ensures { IsTold (type_name number.0 self.now) to.old result to.new }
    {
        tell(self.verifier.type_name(number).unwrap_or("").as_bytes(), to)
    }

    /// The name of a file.
    pub(crate) fn tell_file_name(&self, file: FileNo, to: &mut [u8]) -> i64
        ensures { IsTold (file_name file.0 self.now) to.old result to.new }
    {
        tell(self.verifier.file_name(file).unwrap_or("").as_bytes(), to)
    }

    /// What an assertion comes to.
    pub(crate) fn tell_assertion(
        &self,
        alloc: Global,
        seat: SeatNo,
        lock: LockNo,
        flags: LockAssert,
        to: &mut [u8],
    ) -> i64
        ensures { TellsAssertion seat.0 lock.0 flags self.now to.old result to.new }
    {
        let answer = match self.verifier.assert_lock(seat, lock, flags) {
            Ok(answer) => answer,
            Err(fault) => return fault_number(fault),
        };
        match assert_text(alloc, &self.verifier, lock, answer) {
            Ok(text) => tell(text.as_bytes(), to),
            Err(fault) => fault_number(fault),
        }
    }

    /// Of which locks a seat is warned.
    #[tactic(auto, unfolding(crate::specs::Views::TellsWarning))]
    pub(crate) fn tell_warning(
        &self,
        alloc: Global,
        seat: SeatNo,
        named: u32,
        flags: WarnFlags,
        to: &mut [u8],
    ) -> i64
        ensures { TellsWarning seat.0 named flags self.now to.old result to.new }
    {
        match warn_text(alloc, &self.verifier, seat, lock_in(named), flags) {
            Ok(text) => tell(text.as_bytes(), to),
            Err(fault) => fault_number(fault),
        }
    }

    /// Which locks a seat holds.
    pub(crate) fn tell_locks(&self, alloc: Global, seat: SeatNo, to: &mut [u8]) -> i64
        ensures { IsToldOrFails (locks_text seat.0 self.now) to.old result to.new }
    {
        match locks_of(alloc, &self.verifier, seat) {
            Ok(text) => tell(text.as_bytes(), to),
            Err(fault) => fault_number(fault),
        }
    }

    /// Which locks all seats hold.
    pub(crate) fn tell_all_locks(&self, alloc: Global, to: &mut [u8]) -> i64
        ensures { IsToldOrFails (all_locks_text self.now) to.old result to.new }
    {
        match all_locks(alloc, &self.verifier) {
            Ok(text) => tell(text.as_bytes(), to),
            Err(fault) => fault_number(fault),
        }
    }

    /// The direct orders.
    pub(crate) fn tell_graph(&self, alloc: Global, to: &mut [u8]) -> i64
        ensures { IsToldOrFails (graph_text self.now) to.old result to.new }
    {
        match graph(alloc, &self.verifier) {
            Ok(text) => tell(text.as_bytes(), to),
            Err(fault) => fault_number(fault),
        }
    }

    /// A circle's seats.
    #[tactic(auto, unfolding(crate::specs::Views::TellsSeats))]
    pub(crate) fn tell_seats(&self, alloc: Global, to: &mut [u16]) -> i64
        ensures { TellsSeats self.now to.old result to.new }
    {
        let seats = match self.verifier.wait_circle() {
            Ok(Some(seats)) => seats,
            Ok(None) => return 0,
            Err(fault) => return fault_number(fault),
        };
        match seat_numbers(alloc, &seats) {
            Ok(numbers) => tell(&numbers, to),
            Err(_) => fault_number(Fault::OutOfMemory),
        }
    }

    /// A circle's text.
    #[tactic(auto, unfolding(crate::specs::Views::TellsCircleText))]
    pub(crate) fn tell_circle(&self, alloc: Global, to: &mut [u8]) -> i64
        ensures { TellsCircleText self.now to.old result to.new }
    {
        match self.verifier.wait_circle() {
            Ok(Some(seats)) => self.tell_waits(alloc, Some(&seats), to),
            Ok(None) => self.tell_waits(alloc, None, to),
            Err(fault) => fault_number(fault),
        }
    }

    // The text of this circle, or that there is none.
    fn tell_waits(&self, alloc: Global, circle: Option<&[SeatNo]>, to: &mut [u8]) -> i64
        ensures { IsToldOrFails (circle_text (state_of self.now.verifier)
            (option_map seat_numbers (option_copied circle.entry))) to.old result to.new }
    {
        match circle_text(alloc, &self.verifier, circle) {
            Ok(text) => tell(text.as_bytes(), to),
            Err(fault) => fault_number(fault),
        }
    }

    /// The types on a path.
    pub(crate) fn tell_path(&self, alloc: Global, from: TypeNo, goal: TypeNo, to: &mut [u16]) -> i64
        ensures { IsToldOrFails (path_types from.0 goal.0 self.now) to.old result to.new }
    {
        let types = match self.verifier.path(from, goal) {
            Ok(Some(types)) => types,
            Ok(None) => return 0,
            Err(fault) => return fault_number(fault),
        };
        match type_numbers(alloc, &types) {
            Ok(numbers) => tell(&numbers, to),
            Err(_) => fault_number(Fault::OutOfMemory),
        }
    }
}

fn seat_numbers(alloc: Global, seats: &[SeatNo]) -> Result<Vec<u16>, AllocError>
    ensures { IfOk result (λ numbers. numbers.items ≡ map (λ (seat : SeatNo). seat.0) seats.now) }
{
    seats.iter().map(|seat| seat.0).collect(alloc)
}

fn type_numbers(alloc: Global, types: &[TypeNo]) -> Result<Vec<u16>, AllocError>
    ensures { IfOk result (λ numbers. numbers.items ≡ map (λ (type_no : TypeNo). type_no.0) types.now) }
{
    types.iter().map(|number| number.0).collect(alloc)
}
