//! `init`: a lock is made.

ghost use Rattle.std.specs.Prelude.{◌≡◌, true, Ok, IfOk, IfErr, OnOk, OnErr, unwrap_or};
ghost use Rattle.std.specs.Option.{option_copied};
ghost use Rattle.wit_model.specs.declared.calls.Call.TheVariants.{Init};
ghost use Rattle.wit_model.specs.declared.calls.Reply.TheVariants.{Made};
ghost use Rattle.wit_model.specs.declared.faults.Fault.TheVariants.{OutOfMemory};
ghost use Rattle.wit_model.specs.Rules.Names.{is_name};
ghost use Rattle.wit_model.specs.Rules.State.{state_of};
ghost use Rattle.wit_model.specs.Rules.Step.{AnswersOrFails, answer_of, logged, step_typed};
ghost use Rattle.wit_model.specs.Rules.Step.{is_good_name};
ghost use Rattle.wit_core.specs.Replies.{new_lock, made_reply};

use crate::ready::let_go;
use crate::verifier::Verifier;
use std::alloc::{AllocError, Global};
use wit_model::{
    Boxed, Call, Class, Entry, Fault, LockFlags, LockNo, Name, NewLock, Reply, SeatNo,
};

impl Verifier {
    /// Makes a lock, as `lock_init` does: its number is the next one.
    ///
    /// # Errors
    /// In this order: `UnknownSeat`; `Pending` where the seat has a request; `BadName` where a name
    /// isn't one; `ClassMismatch` where its type is known with another class; `TypesFull` and
    /// `LocksFull` where no number is left; `LogFull`; `OutOfMemory`.
    pub fn init(
        &mut self,
        seat: SeatNo,
        name: &str,
        type_name: Option<&str>,
        class: Class,
        flags: LockFlags,
    ) -> Result<LockNo, Fault>
        ensures { AnswersOrFails self.old seat.0
            (Init (new_lock name.now (option_copied type_name.entry) class flags))
            (made_reply result) self.new }
    {
        let number = self.answer_init(seat, name, type_name, class, flags)?;
        let made = new_lock(self.alloc, name, type_name, class, flags)?;
        self.enter_init(seat, number, Boxed::new(self.alloc, made)?)?;
        Ok(number)
    }

    /// As `init`, for names that were tested: each `Name` is one.
    ///
    /// # Errors
    /// Those of `init`, but for `BadName`.
    pub fn make(&mut self, seat: SeatNo, lock: NewLock) -> Result<LockNo, Fault>
        ensures { AnswersOrFails self.old seat.0 (Init lock) (made_reply result) self.new }
    {
        let number = self.answer_make(seat, &lock)?;
        self.enter_init(seat, number, Boxed::new(self.alloc, lock)?)?;
        Ok(number)
    }

    // As `make`, for a lock that is boxed already.
    pub(crate) fn make_boxed(&mut self, seat: SeatNo, lock: Boxed<NewLock>) -> Result<LockNo, Fault>
        ensures { AnswersOrFails self.old seat.0 (Init lock) (made_reply result) self.new }
    {
        let number = self.answer_make(seat, lock.get())?;
        self.enter_init(seat, number, lock)?;
        Ok(number)
    }

    fn answer_make(&self, seat: SeatNo, lock: &NewLock) -> Result<LockNo, Fault>
        ensures { made_reply result ≡ answer_of self.now seat.0 (Init lock.now) }
    {
        self.about_seat(seat)?;
        // Reading a name shows that it is one.
        let _name = lock.name.as_str();
        let type_name = lock.type_name().as_str();
        self.answer_typed(type_name, lock.class)
    }

    // The number of the new lock.
    fn answer_init(
        &self,
        seat: SeatNo,
        name: &str,
        type_name: Option<&str>,
        class: Class,
        flags: LockFlags,
    ) -> Result<LockNo, Fault>
        ensures answer { made_reply result ≡ answer_of self.now seat.0
            (Init (new_lock name.now (option_copied type_name.entry) class flags)) }
        ensures name { OnOk result (is_name name.now ≡ true) }
        ensures type_name { OnOk result (is_good_name (option_copied type_name.entry) ≡ true) }
    {
        self.about_seat(seat)?;
        if !Name::accepts(name) || !is_good_name(type_name) {
            return Err(Fault::BadName);
        }
        self.answer_typed(type_name_or(name, type_name), class)
    }

    // The number of a new lock of the type with this name.
    fn answer_typed(&self, type_name: &str, class: Class) -> Result<LockNo, Fault>
        ensures { made_reply result ≡ step_typed (state_of self.now) type_name.now class }
    {
        if self.is_otherwise(type_name, class) {
            return Err(Fault::ClassMismatch);
        }
        if self.is_types_full(type_name) {
            return Err(Fault::TypesFull);
        }
        let Some(number) = self.next_lock() else {
            return Err(Fault::LocksFull);
        };
        if !self.has_room(1) {
            return Err(Fault::LogFull);
        }
        Ok(number)
    }

    fn enter_init(
        &mut self,
        seat: SeatNo,
        number: LockNo,
        made: Boxed<NewLock>,
    ) -> Result<(), Fault>
        requires { answer_of self.old seat.0 (Init made) ≡ Ok (Made number) }
        ensures ok { OnOk result (self.new ≡ logged self.old seat.0 (Init made) (Made number)) }
        ensures err { OnErr result (self.new ≡ self.old) }
        ensures memory { IfErr result (λ e. e ≡ OutOfMemory) }
    {
        // Called for its clause that there are never more than 65,536 locks.
        let _most = self.limits.locks();
        let known = made.get().copy(self.alloc)?;
        self.log.reserve(1)?;
        self.known.add_lock(known)?;
        let entry = Entry {
            seat,
            call: Call::Init(made),
            reply: Reply::Made(number),
        };
        let_go(&mut self.ready);
        self.log.push(entry, 0);
        Ok(())
    }
}

fn new_lock(
    alloc: Global,
    name: &str,
    type_name: Option<&str>,
    class: Class,
    flags: LockFlags,
) -> Result<NewLock, AllocError>
    requires name { is_name name.now ≡ true }
    requires type_name { is_good_name (option_copied type_name) ≡ true }
    ensures { IfOk result (λ l. l ≡ new_lock name.now (option_copied type_name.entry) class flags) }
{
    let name = Name::tested(alloc, name)?;
    match type_name {
        Some(type_name) => Ok(NewLock {
            class,
            flags,
            name,
            type_name: Some(Name::tested(alloc, type_name)?),
        }),
        None => Ok(NewLock {
            class,
            flags,
            name,
            type_name: None,
        }),
    }
}

fn is_good_name(name: Option<&str>) -> bool
    ensures { result ≡ is_good_name (option_copied name.entry) }
{
    match name {
        Some(name) => Name::accepts(name),
        None => true,
    }
}

// The name under which a lock takes part in orders.
fn type_name_or<'a>(name: &'a str, type_name: Option<&'a str>) -> &'a str
    ensures { result.now ≡ unwrap_or (option_copied type_name.entry) name.now }
{
    match type_name {
        Some(type_name) => type_name,
        None => name,
    }
}
