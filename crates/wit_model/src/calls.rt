//! The calls of a verifier, their replies, and the entries of its log.

ghost use Rattle.std.specs.Prelude.{◌≡◌, IfOk};
ghost use Rattle.wit_model.specs.Rules.Types.{type_name_of};

use crate::boxes::Boxed;
use crate::flags::{LockFlags, OpFlags};
use crate::locks::{Class, LockNo, Mode, Origin, SeatNo, Site, TypeNo, Watch};
use crate::names::Name;
use crate::new_orders::NewOrders;
use std::alloc::{AllocError, Global};

/// What a new lock is to be: the arguments of `lock_init` in witness(4)'s interface.
#[derive(Debug, Drop)]
pub struct NewLock {
    /// The class that all locks of its type have.
    pub class: Class,
    /// What it allows.
    pub flags: LockFlags,
    /// Its own name, by which reports tell it.
    pub name: Name,
    /// The name under which it takes part in orders; its own name where there is none.
    pub type_name: Option<Name>,
}

impl NewLock {
    /// The name under which it takes part in orders.
    pub fn type_name(&self) -> &Name
        ensures { result.now ≡ type_name_of self.now }
    {
        match &self.type_name {
            Some(name) => name,
            None => &self.name,
        }
    }

    /// A second lock with these names, class and flags.
    ///
    /// # Errors
    /// Want of memory alone.
    pub fn copy(&self, alloc: Global) -> Result<NewLock, AllocError>
        ensures { IfOk result (λ l. l ≡ self.now) }
    {
        let name = self.name.copy(alloc)?;
        let type_name = match &self.type_name {
            Some(type_name) => Some(type_name.copy(alloc)?),
            None => None,
        };
        Ok(NewLock {
            class: self.class,
            flags: self.flags,
            name,
            type_name,
        })
    }
}

/// A request for a lock: the arguments of WITNESS's `checkorder`.
#[derive(Clone, Copy, Debug, PartialEq, Eq, Hash)]
pub struct Request {
    /// The lock asked for.
    pub lock: LockNo,
    /// Where it is asked for.
    pub site: Site,
    /// How it is to be held.
    pub mode: Mode,
    /// What the request allows.
    pub ops: OpFlags,
}

/// A request as it is judged, with what is known of the lock.
#[derive(Clone, Copy, Debug, PartialEq, Eq, Hash)]
pub struct TypedRequest {
    /// The lock asked for.
    pub lock: LockNo,
    /// The lock's type.
    pub type_no: TypeNo,
    /// What the lock allows.
    pub flags: LockFlags,
    /// How it is to be held.
    pub mode: Mode,
    /// What the request allows.
    pub ops: OpFlags,
    /// Where it is asked for.
    pub site: Site,
}

/// A call that the log keeps.
#[derive(Debug, Drop)]
pub enum Call {
    /// A lock is made.
    Init(Boxed<NewLock>),
    /// A lock is about to be acquired.
    Check(Request),
    /// The lock asked for was acquired.
    Note(LockNo),
    /// A lock was acquired in this mode without waiting, as by `mtx_trylock` of mutex(9).
    NoteTry(LockNo, Mode, Site),
    /// The lock asked for was not acquired.
    GiveUp(LockNo),
    /// A lock is released, as one held in this mode.
    Unlock(LockNo, Mode),
    /// This much is watched from now on.
    SetWatch(Watch),
    /// A lock is no more: `lock_destroy` in witness(4)'s interface.
    Destroy(LockNo),
    /// A lock held shared is held exclusively from now on, as by `rw_try_upgrade` of rwlock(9).
    Upgrade(LockNo),
    /// A lock held exclusively is held shared from now on, as by `rw_downgrade` of rwlock(9).
    Downgrade(LockNo),
    /// A held lock must not be released: `witness_norelease` of subr_witness.c.
    NoRelease(LockNo),
    /// It may be released again: `witness_releaseok` of subr_witness.c.
    ReleaseOk(LockNo),
    /// The first lock's type is before the second one's: `witness_defineorder` of subr_witness.c.
    DefineOrder(LockNo, LockNo),
}

/// Which rule a reversal breaks.
#[derive(Clone, Copy, Debug, PartialEq, Eq, Hash)]
pub enum Heading {
    /// The requested type is before the held one.
    Order,
    /// A lock whose holder may sleep is asked for under one whose holder must not.
    Sleepable,
    /// Giant is asked for under a lock that isn't sleepable.
    Giant,
}

/// A lock and a place in the watched program.
#[derive(Clone, Copy, Debug, PartialEq, Eq, Hash)]
pub struct LockAt {
    /// The lock.
    pub lock: LockNo,
    /// Where it was acquired or is asked for.
    pub site: Site,
}

/// What a reversal is about.
#[derive(Clone, Copy, Debug, PartialEq, Eq, Hash)]
pub struct Conflict {
    /// The rule that it breaks.
    pub heading: Heading,
    /// The held lock that breaks the rule: the newest one that does.
    pub held: LockAt,
    /// The newest held lock of the requested type among those older than `held`.
    pub older: Option<LockAt>,
    /// The requested lock.
    pub asked: LockAt,
}

/// What a report of two locks of one type is about.
#[derive(Clone, Copy, Debug, PartialEq, Eq, Hash)]
pub struct Doubling {
    /// The last held lock, which is of the requested type; where all held locks are compared with,
    /// the newest one of that type.
    pub last: LockAt,
    /// The requested lock.
    pub asked: LockAt,
}

/// The answer of an accepted call.
#[derive(Debug, Drop)]
pub enum Reply {
    /// The lock was made, with this number.
    Made(LockNo),
    /// The call did what it says.
    Done,
    /// Nothing to say.
    Pass,
    /// The order of these types was learnt.
    Adopted(TypeNo, TypeNo),
    /// These orders behind held locks were learnt, that behind the newest one first. There is at
    /// least one, and none was known. Where all held locks are compared with, it stands in place of
    /// `Adopted`.
    AdoptedAll(Boxed<NewOrders>),
    /// The request breaks the order of these types, the held one and the requested one, and nothing
    /// is said of it: that was reported before, or the pair is blessed. Where both are one type, a
    /// second lock of a type that was found doubled is asked for.
    Silent(TypeNo, TypeNo),
    /// The request breaks an order: a possible deadlock.
    Reversal(Boxed<Conflict>),
    /// The last held lock is of the requested type, and that is told for the first time. Where all
    /// held locks are compared with, the newest one of that type.
    Duplicate(Boxed<Doubling>),
    /// The acquisition is recorded.
    Recorded,
    /// No chunk is free for the acquisition: it isn't recorded, and nothing is watched from now on.
    Exhausted,
    /// The acquisition isn't recorded, since nothing is watched.
    Unrecorded,
    /// The release is recorded.
    Unlocked,
    /// The order is a direct one already.
    Known,
    /// The call is passed over, since not everything is watched. The log holds no such answer.
    Ignored,
}

impl Reply {
    /// A second reply equal to this one. What a report is about isn't copied.
    ///
    /// # Errors
    /// Want of memory alone.
    pub fn share(&self) -> Result<Reply, AllocError>
        ensures { IfOk result (λ r. r ≡ self.now) }
    {
        Ok(match self {
            Reply::Made(lock) => Reply::Made(*lock),
            Reply::Done => Reply::Done,
            Reply::Pass => Reply::Pass,
            Reply::Adopted(parent, child) => Reply::Adopted(*parent, *child),
            Reply::AdoptedAll(orders) => Reply::AdoptedAll(orders.share()?),
            Reply::Silent(held, asked) => Reply::Silent(*held, *asked),
            Reply::Reversal(conflict) => Reply::Reversal(conflict.share()?),
            Reply::Duplicate(doubling) => Reply::Duplicate(doubling.share()?),
            Reply::Recorded => Reply::Recorded,
            Reply::Exhausted => Reply::Exhausted,
            Reply::Unrecorded => Reply::Unrecorded,
            Reply::Unlocked => Reply::Unlocked,
            Reply::Known => Reply::Known,
            Reply::Ignored => Reply::Ignored,
        })
    }
}

/// An entry of the log: an accepted call of a seat, and its reply.
#[derive(Debug, Drop)]
pub struct Entry {
    /// Who made the call.
    pub seat: SeatNo,
    /// What was called.
    pub call: Call,
    /// The answer of the rules after the entries before this one.
    pub reply: Reply,
}

// The log may hold 16,777,216 entries, and each acquisition writes three.
const _: () = prove!(size_of::<Entry>() <= 48);

/// A direct order between two types that was adopted.
#[derive(Clone, Copy, Debug, PartialEq, Eq, Hash)]
pub struct Adoption {
    /// The type whose locks are acquired first.
    pub parent: TypeNo,
    /// The type whose locks are acquired behind them.
    pub child: TypeNo,
    /// How it came to be known.
    pub origin: Origin,
}
