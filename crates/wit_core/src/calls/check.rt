//! `check`: a seat asks for a lock.

ghost use Rattle.std.specs.Prelude.{◌≡◌, ◌≢◌, [], true, false, IsOk, IfOk, IfErr, IfSome, OnOk};
ghost use Rattle.std.specs.Prelude.{Ok, Err};
ghost use Rattle.wit_model.specs.declared.calls.Reply.TheVariants.{Pass};
ghost use Rattle.wit_model.specs.declared.calls.Call.TheVariants.{Check};
ghost use Rattle.wit_model.specs.declared.faults.Fault.TheVariants.{OutOfMemory};
ghost use Rattle.wit_model.specs.declared.calls.Request.{Request};
ghost use Rattle.wit_model.specs.Rules.Locks.{lock_at};
ghost use Rattle.wit_model.specs.Rules.Orders.{adopted};
ghost use Rattle.wit_model.specs.Rules.Preparing.{IsPrepared, Prepares};
ghost use Rattle.wit_model.specs.Rules.Refusals.{IsRefusal};
ghost use Rattle.wit_model.specs.Rules.State.{state_of, seat_at, is_seat, is_live};
ghost use Rattle.wit_model.specs.Rules.Step.{AnswersOrFails, IsEntered, answer_of, is_logged};
ghost use Rattle.wit_model.specs.Rules.Step.{logged};
ghost use Rattle.wit_model.specs.Rules.Types.{is_spin};
ghost use Rattle.wit_model.specs.Rules.Verdict.{typed_request, verdict};
ghost use Rattle.wit_check.specs.Answers.{answer_by};
ghost use Rattle.wit_core.specs.Attempts.{Attempts};
ghost use Rattle.wit_core.specs.Verdict.{orders_taught, tells_new, untyped, IsToldBy};

use crate::calls::attempt::Attempt;
use crate::ready::{Plan, Ready, let_go};
use crate::verifier::Verifier;
use bitflags::Flags;
use std::alloc::AllocError;
use wit_check::{Chains, Verdict, new_orders, verdict};
use wit_model::{
    Boxed, Call, Entry, Fault, LockFlags, LockNo, Mode, NewOrders, OpFlags, Reply, Request, SeatNo,
    Site, TypedRequest,
};

// So many locks of each seat, on average, are few.
const FEW_LOCKS: u32 = 16;

// The verdict on a request, and what its lock allows.
#[derive(Drop)]
struct Judged {
    verdict: Verdict,
    flags: LockFlags,
}

// Whether a check that is answered so teaches orders.
fn teaches(reply: &Reply) -> bool
    ensures yes { (q : Request) → result ≡ true → adopted (Check q) reply.now ≢ [] }
    ensures no { (q : Request) → result ≡ false → adopted (Check q) reply.now ≡ [] }
{
    match reply {
        Reply::Adopted(..) => true,
        Reply::AdoptedAll(list) => !list.get().pairs().is_empty(),
        _ => false,
    }
}

impl Verifier {
    /// Asks whether a lock may be acquired here: WITNESS's `checkorder`. Its request is then
    /// pending until it is noted or given up. The answer is `Pass`; `Adopted` where the order
    /// behind the last held lock was learnt; `Duplicate` where that lock has the requested type,
    /// and `Reversal` where the request breaks an order, which are reports; or `Silent` where that
    /// was reported before, or where the broken order is that of a blessed pair. A second lock of a
    /// type that the lock or the request allows passes. Where not everything is watched it is
    /// always `Pass`.
    ///
    /// In the profile that compares with all held locks it is `AdoptedAll` in place of `Adopted`,
    /// where new orders were learnt, with all of them, that behind the newest lock first; and
    /// `Duplicate` where any of them has the requested type, the newest of which is told.
    ///
    /// # Errors
    /// In this order: `UnknownSeat`; `UnknownLock`; `UnknownFile`; `ModeNotAllowed` for a mutex
    /// asked for shared; `Pending` where the seat has a request; `RecursionTooDeep`, unless nothing
    /// is watched, where it has acquired the lock 65,536 times; where everything is watched,
    /// `SleepUnderSpin` for a lock of the sleep kind where the seat holds a spin lock, and for a
    /// lock that it holds `SharedOfExclusive`, `ExclusiveOfShared` and `Recursed`; `LogFull`;
    /// `OutOfMemory`, but not where it is prepared.
    pub fn check(
        &mut self,
        seat: SeatNo,
        lock: LockNo,
        mode: Mode,
        ops: OpFlags,
        site: Site,
    ) -> Result<Reply, Fault>
        ensures answer { AnswersOrFails self.old seat.0
            (Check (record { lock = lock; site = site; mode = mode; ops = ops })) result self.new }
        ensures prepared { IsPrepared self.old seat.0
            (Check (record { lock = lock; site = site; mode = mode; ops = ops })) → IsOk result }
    {
        let request = Request {
            lock,
            site,
            mode,
            ops,
        };
        self.ask(seat, request)
    }

    // Checks a request as a value. By itself, so that no other call pays for its locals.
    #[inline(never)]
    pub(crate) fn ask(&mut self, seat: SeatNo, request: Request) -> Result<Reply, Fault>
        ensures answer { AnswersOrFails self.old seat.0 (Check request) result self.new }
        ensures prepared { IsPrepared self.old seat.0 (Check request) → IsOk result }
    {
        if !self.is_ready(seat, Plan::Check(request)) {
            let judged = self.judge(seat, request)?;
            if let Verdict::Pass = judged.verdict {
                return self.pass(seat, request, judged.flags);
            }
            let _reply = self.ready_verdict(seat, request, judged.verdict)?;
        }
        Ok(self.enter_check(seat, request))
    }

    // Checks a request that teaches no orders, and prepares one that does.
    pub(crate) fn attempt_check(&mut self, seat: SeatNo, request: Request) -> Result<Attempt, Fault>
        ensures { Attempts self.old seat.0 (Check request) result self.new }
    {
        let judged = self.judge(seat, request)?;
        if let Verdict::Pass = judged.verdict {
            return Ok(Attempt::Made(self.pass(seat, request, judged.flags)?));
        }
        let reply = self.ready_verdict(seat, request, judged.verdict)?;
        if teaches(&reply) {
            return Ok(Attempt::Teaches(Call::Check(request), reply));
        }
        Ok(Attempt::Made(self.enter_check(seat, request)))
    }

    // Prepares a request.
    pub(crate) fn ready_check(&mut self, seat: SeatNo, request: Request) -> Result<Reply, Fault>
        ensures answer { Prepares self.old seat.0 (Check request) result self.new }
        ensures logged { IfOk result (λ r. is_logged r ≡ true) }
    {
        let judged = self.judge(seat, request)?;
        self.ready_verdict(seat, request, judged.verdict)
    }

    // Prepares a request on which this is the verdict. By itself, so that a request that passes
    // doesn't pay for its locals.
    #[inline(never)]
    fn ready_verdict(
        &mut self,
        seat: SeatNo,
        request: Request,
        verdict: Verdict,
    ) -> Result<Reply, Fault>
        requires seat { is_seat (state_of self.old) seat.0 ≡ true }
        requires lock { is_live (state_of self.old) request.lock.0 ≡ true }
        requires verdict { IsToldBy self.old seat.0 request verdict }
        ensures answer { Prepares self.old seat.0 (Check request) result self.new }
        ensures logged { IfOk result (λ r. is_logged r ≡ true) }
    {
        let reply = self.reply_to(seat, request, verdict)?;
        self.make_ready(seat, Plan::Check(request), reply)
    }

    // The verdict on a request, where it isn't refused. Inlined, since a check that isn't prepared
    // is by far the most frequent of the two that ask for it.
    #[inline(always)]
    fn judge(&self, seat: SeatNo, request: Request) -> Result<Judged, Fault>
        ensures seat { OnOk result (is_seat (state_of self.now) seat.0 ≡ true) }
        ensures lock { OnOk result (is_live (state_of self.now) request.lock.0 ≡ true) }
        ensures ok { IfOk result (λ j. IsToldBy self.now seat.0 request j.verdict) }
        ensures flags { IfOk result (λ j.
            j.flags ≡ (lock_at (state_of self.now).known.locks request.lock.0).made.flags) }
        ensures err { IfErr result (λ e. answer_of self.now seat.0 (Check request) ≡ Err e) }
    {
        self.before_acquiring(seat, request.lock, request.mode, request.site)?;
        let asked = self.typed_request(request);
        let verdict = self.verdict(seat, asked);
        if let Verdict::Fault(fault) = verdict {
            return Err(fault);
        }
        if !self.has_room(3) {
            return Err(Fault::LogFull);
        }
        Ok(Judged {
            verdict,
            flags: asked.flags,
        })
    }

    // The verdict on the request of a seat for a live lock, with what is known of the lock.
    fn verdict(&self, seat: SeatNo, asked: TypedRequest) -> Verdict
        requires seat { is_seat (state_of self.now) seat.0 ≡ true }
        requires lock { is_live (state_of self.now) asked.lock.0 ≡ true }
        requires asked { asked ≡ typed_request (state_of self.now).known (untyped asked) }
        ensures { let s = state_of self.now in
            answer_by (orders_taught s seat.0 (untyped asked)) result
            ≡ verdict s.profile s.known s.watch (seat_at s seat.0) (untyped asked) }
    {
        let known = &self.known;
        let chains = Chains {
            lists: self.seats.lists(),
            seat,
            lock_types: known.lock_types(),
        };
        verdict(
            known.names(),
            known.orders().matrix(),
            chains,
            self.watch,
            asked,
            self.profile,
        )
    }

    // The orders that the request of a seat for a live lock teaches behind all the locks of its
    // kind that it holds.
    fn new_orders(&self, seat: SeatNo, request: Request) -> Result<NewOrders, AllocError>
        requires seat { is_seat (state_of self.now) seat.0 ≡ true }
        requires lock { is_live (state_of self.now) request.lock.0 ≡ true }
        ensures { IfOk result (λ new. new ≡ orders_taught (state_of self.now) seat.0 request) }
    {
        let known = &self.known;
        let chains = Chains {
            lists: self.seats.lists(),
            seat,
            lock_types: known.lock_types(),
        };
        new_orders(
            self.alloc,
            known.names(),
            known.orders().matrix(),
            chains,
            self.typed_request(request),
        )
    }

    // A request, with what is known of its lock.
    fn typed_request(&self, request: Request) -> TypedRequest
        ensures { result ≡ typed_request (state_of self.now).known request }
    {
        let locks = self.known.locks();
        TypedRequest {
            lock: request.lock,
            type_no: locks.type_of(request.lock),
            flags: locks.flags_of(request.lock),
            mode: request.mode,
            ops: request.ops,
            site: request.site,
        }
    }

    // The reply that tells the verdict on a request; its fault, or want of memory, where it has
    // none.
    fn reply_to(&self, seat: SeatNo, request: Request, verdict: Verdict) -> Result<Reply, Fault>
        requires seat { is_seat (state_of self.now) seat.0 ≡ true }
        requires lock { is_live (state_of self.now) request.lock.0 ≡ true }
        ensures ok { IfOk result (λ reply. answer_by
            (orders_taught (state_of self.now) seat.0 request) verdict ≡ Ok reply) }
        ensures err { IfErr result (IsRefusal
            (answer_by (orders_taught (state_of self.now) seat.0 request) verdict)) }
    {
        let alloc = self.alloc;
        match verdict {
            Verdict::Pass => Ok(Reply::Pass),
            Verdict::Adopt(parent, child) => Ok(Reply::Adopted(parent, child)),
            Verdict::AdoptAll => {
                let orders = self.new_orders(seat, request)?;
                Ok(Reply::AdoptedAll(Boxed::new(alloc, orders)?))
            }
            Verdict::Silent(held, asked) => Ok(Reply::Silent(held, asked)),
            Verdict::Duplicate(doubling) => Ok(Reply::Duplicate(Boxed::new(alloc, doubling)?)),
            Verdict::Reversal(conflict) => Ok(Reply::Reversal(Boxed::new(alloc, conflict)?)),
            Verdict::Fault(fault) => Err(fault),
        }
    }

    // Enters a request that is prepared, and what its reply tells. It takes no memory.
    fn enter_check(&mut self, seat: SeatNo, request: Request) -> Reply
        requires { IsPrepared self.old seat.0 (Check request) }
        ensures answer { answer_of self.old seat.0 (Check request) ≡ Ok result }
        ensures logged { is_logged result ≡ true }
        ensures entered { self.new ≡ logged self.old seat.0 (Check request) result }
    {
        let Ready { reply, kept, .. } = self.ready.take().unwrap();
        self.known.learn(request, &reply);
        self.seats.ask(seat, request);
        let entry = Entry {
            seat,
            call: Call::Check(request),
            reply: kept,
        };
        self.log.push(entry, 2);
        reply
    }

    // A request for a lock that allows this passes. It may show that its seat doesn't hold the lock:
    // then this is the lock's kind, and else `None`. It is `None` too where seats hold few locks,
    // since a look through them takes no longer then.
    fn new_in(&self, request: Request, flags: LockFlags) -> Option<bool>
        requires { flags ≡ (lock_at (state_of self.now).known.locks request.lock.0).made.flags }
        ensures { IfSome result (λ spin. (tells_new (state_of self.now) request ≡ true) × (spin
            ≡ is_spin (lock_at (state_of self.now).known.locks request.lock.0).made.class)) }
    {
        if self.log.owed() <= FEW_LOCKS * self.limits.seats() {
            return None;
        }
        if !self.watch.is_on() || !request.mode.is_exclusive() {
            return None;
        }
        if flags.contains(LockFlags::RECURSABLE) {
            return None;
        }
        Some(self.class_of_lock(request.lock).is_spin())
    }

    // Enters a request that passes, for a lock that allows this.
    fn pass(&mut self, seat: SeatNo, request: Request, flags: LockFlags) -> Result<Reply, Fault>
        requires flags { flags
            ≡ (lock_at (state_of self.old).known.locks request.lock.0).made.flags }
        requires passes { answer_of self.old seat.0 (Check request) ≡ Ok Pass }
        ensures { AnswersOrFails self.old seat.0 (Check request) result self.new }
    {
        let new_in = self.new_in(request, flags);
        self.log.reserve(3)?;
        let_go(&mut self.ready);
        self.seats.ask_for(seat, request, new_in);
        let entry = Entry {
            seat,
            call: Call::Check(request),
            reply: Reply::Pass,
        };
        self.log.push(entry, 2);
        Ok(Reply::Pass)
    }
}
