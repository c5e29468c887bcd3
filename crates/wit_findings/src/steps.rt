//! What becomes of a line.

ghost use Rattle.std.specs.Prelude.{◌≡◌, ◌<◌, ◌≤◌, ◌+◌, ◌++◌, [], true, IfOk, OnOk};
ghost use Rattle.std.specs.Option.{option_copied};
ghost use Rattle.wit_model.specs.Trace.Output.{cause_text};
ghost use Rattle.wit_recorded.specs.Reading.{line_of};
ghost use Rattle.wit_findings.specs.Findings.{Enters};
ghost use Rattle.wit_findings.specs.Graded.{if_any, report_at, with_reported, with_reports};
ghost use Rattle.wit_findings.specs.Reports.{reply_text};
ghost use Rattle.wit_findings.specs.Steps.{IsAfter, asks, calls, checks, grades, has_room, makes, names};
ghost use Rattle.wit_findings.specs.Steps.{next_site, outcome, outcome_of, refused, seats, spot_of};
ghost use Rattle.wit_findings.specs.Steps.{tries, unread, with_spot};
ghost use Rattle.wit_findings.specs.Told.{named_type, told};

use crate::errors::put_error;
use crate::grades::{grade_text, reported};
use crate::objects::{finding, put_line, put_text};
use crate::recording::{Recording, Reported, named_type};
use crate::reports::put_reply;
use crate::spots::{MOST_SPOTS, Spot};
use crate::states::state_text;
use std::alloc::{AllocError, Global};
use wit_model::{
    Boxed, Call, Cause, Class, Fault, FileNo, LockFlags, Name, NewLock, OpFlags, Reply, Request,
    SeatNo, Site,
};
use wit_recorded::{Asked, Line, VERSION, makes_lock};

impl Recording {
    /// Enters a line with this number that says this, and puts what is told of it into the text. Whether
    /// the reading goes on.
    ///
    /// # Errors
    /// Want of memory alone.
    pub fn follow(
        &mut self,
        alloc: Global,
        number: u64,
        line: Line,
        text: &mut Vec<u8>,
    ) -> Result<bool, AllocError>
        requires room { self.old.bads < number }
        requires empty { text.old.items ≡ [] }
        ensures enters { IfOk result (λ goes. Enters (told self.old)
            (outcome_of (told self.old) number line) (told self.new) text.new.items goes) }
        ensures counted { OnOk result (self.new.bads ≤ self.old.bads + 1) }
    {
        match line {
            Line::Check(asked) => self.check(alloc, number, asked, text)?,
            Line::Try(asked) => self.attempt(alloc, number, asked, text)?,
            Line::Lock(seat, lock) => {
                let call = Call::Note(self.lock(lock));
                self.call(alloc, number, seat, call, text)?;
            }
            Line::GiveUp(seat, lock) => {
                let call = Call::GiveUp(self.lock(lock));
                self.call(alloc, number, seat, call, text)?;
            }
            Line::Unlock(seat, lock, mode) => {
                let call = Call::Unlock(self.lock(lock), mode);
                self.call(alloc, number, seat, call, text)?;
            }
            Line::Init(seat, class, recursive, of) => {
                self.make(alloc, number, seat, class, recursive, of, text)?;
            }
            Line::Name(of, name) => self.name(alloc, number, of, name, text)?,
            Line::Thread(seat, thread) => self.seat(alloc, number, seat, thread, text)?,
            Line::Error(what, seat, lock, place) => {
                put_error(text, alloc, self, number, what, seat, lock, place)?;
            }
            Line::Pair(pair) => self.tellings.add_pair(alloc, pair)?,
            Line::Many => self.tellings.note_many(),
            Line::Life(thread, maker, at) => self.tellings.add_life(thread, maker, at)?,
            Line::Joined(thread, by, at) => self.tellings.add_join(thread, by, at)?,
            Line::Grade(of) => self.grade(alloc, number, of, text)?,
            Line::Look => *text = state_text(alloc, self)?,
            Line::Begun(version, lost) => {
                if version != VERSION {
                    self.refuse(alloc, number, Cause::Version, text)?;
                    return Ok(false);
                }
                self.tellings.note_lost(lost);
            }
            Line::Process(_) | Line::Passed => {}
        }
        Ok(true)
    }

    /// Tells a line that says nothing. Where it was to make a lock, it counts one.
    ///
    /// # Errors
    /// Want of memory alone.
    pub fn pass_over(
        &mut self,
        alloc: Global,
        number: u64,
        bytes: &[u8],
        text: &mut Vec<u8>,
    ) -> Result<(), AllocError>
        requires room { self.old.bads < number }
        requires empty { text.old.items ≡ [] }
        ensures after { OnOk result (IsAfter (unread (told self.old) number bytes.now)
            (told self.new) text.new.items) }
        ensures counted { OnOk result (self.new.bads ≤ self.old.bads + 1) }
    {
        if makes_lock(bytes) {
            self.locks.push(0)?;
        }
        self.refuse(alloc, number, Cause::Syntax, text)
    }

    /// Tells a bad line, and counts it.
    ///
    /// # Errors
    /// Want of memory alone.
    pub fn refuse(
        &mut self,
        alloc: Global,
        number: u64,
        cause: Cause,
        text: &mut Vec<u8>,
    ) -> Result<(), AllocError>
        requires room { self.old.bads < number }
        requires empty { text.old.items ≡ [] }
        ensures after { OnOk result (IsAfter (refused (told self.old) number cause)
            (told self.new) text.new.items) }
        ensures counted { OnOk result (self.new.bads ≤ self.old.bads + 1) }
    {
        self.bads += 1;
        if self.bad.is_none() {
            self.bad = Some((number, cause));
        }
        let mut json = finding(alloc, self.process, "bad", number)?;
        put_text(&mut json, "why", cause_text(cause))?;
        json.end_object()?;
        put_line(text, json)
    }

    // Makes a call of the verifier, and tells its answer.
    #[tactic(auto, unfolding(crate::specs::Steps::calls))]
    fn call(
        &mut self,
        alloc: Global,
        number: u64,
        seat: SeatNo,
        call: Call,
        text: &mut Vec<u8>,
    ) -> Result<(), AllocError>
        requires room { self.old.bads < number }
        requires empty { text.old.items ≡ [] }
        ensures after { OnOk result (IsAfter (calls (told self.old) number seat.0 call)
            (told self.new) text.new.items) }
        ensures counted { OnOk result (self.new.bads ≤ self.old.bads + 1) }
    {
        match self.verifier.call(seat, call) {
            Ok(reply) => self.tell(alloc, number, &reply, text),
            Err(Fault::OutOfMemory) => Err(AllocError),
            Err(fault) => self.refuse(alloc, number, Cause::Fault(fault), text),
        }
    }

    // Keeps the report of a reply, if it is one, and tells the reply.
    fn tell(
        &mut self,
        alloc: Global,
        number: u64,
        reply: &Reply,
        text: &mut Vec<u8>,
    ) -> Result<(), AllocError>
        ensures known { OnOk result (told self.new ≡ with_reported (told self.old) number reply.now) }
        ensures told { OnOk result (text.new.items ≡ text.old.items
            ++ reply_text (told self.new) number reply.now) }
        ensures counted { OnOk result (self.new.bads ≡ self.old.bads) }
    {
        let report = reported(alloc, self, number, reply)?;
        self.keep_report(report)?;
        put_reply(text, alloc, self, number, reply)
    }

    fn keep_report(&mut self, report: Option<Reported>) -> Result<(), AllocError>
        ensures known { OnOk result (told self.new ≡ with_reports (told self.old) (if_any report)) }
        ensures counted { OnOk result (self.new.bads ≡ self.old.bads) }
    {
        match report {
            Some(report) => {
                self.reports.push(report)?;
                Ok(())
            }
            None => Ok(()),
        }
    }

    // Tells the grade of the report of that line.
    fn grade(
        &mut self,
        alloc: Global,
        number: u64,
        of: u32,
        text: &mut Vec<u8>,
    ) -> Result<(), AllocError>
        requires room { self.old.bads < number }
        requires empty { text.old.items ≡ [] }
        ensures enters { OnOk result (Enters (told self.old)
            (grades (told self.old) number (report_at (told self.old).reports of))
            (told self.new) text.new.items true) }
        ensures counted { OnOk result (self.new.bads ≤ self.old.bads + 1) }
    {
        match report_at(&self.reports, of) {
            Some(report) => {
                *text = grade_text(alloc, self, report)?;
                Ok(())
            }
            None => self.refuse(alloc, number, Cause::Syntax, text),
        }
    }

    // A request.
    fn check(
        &mut self,
        alloc: Global,
        number: u64,
        asked: Asked,
        text: &mut Vec<u8>,
    ) -> Result<(), AllocError>
        requires room { self.old.bads < number }
        requires empty { text.old.items ≡ [] }
        ensures after { OnOk result (IsAfter (checks (told self.old) number asked)
            (told self.new) text.new.items) }
        ensures counted { OnOk result (self.new.bads ≤ self.old.bads + 1) }
    {
        let request = Request {
            lock: self.lock(asked.lock),
            site: self.next_site(),
            mode: asked.mode,
            ops: OpFlags::NEWORDER,
        };
        self.ask(alloc, number, asked, Call::Check(request), text)
    }

    // An acquisition without waiting.
    fn attempt(
        &mut self,
        alloc: Global,
        number: u64,
        asked: Asked,
        text: &mut Vec<u8>,
    ) -> Result<(), AllocError>
        requires room { self.old.bads < number }
        requires empty { text.old.items ≡ [] }
        ensures after { OnOk result (IsAfter (tries (told self.old) number asked)
            (told self.new) text.new.items) }
        ensures counted { OnOk result (self.new.bads ≤ self.old.bads + 1) }
    {
        let call = Call::NoteTry(self.lock(asked.lock), asked.mode, self.next_site());
        self.ask(alloc, number, asked, call, text)
    }

    // A call that names the place that is told next, where there is room for it.
    #[tactic(auto, unfolding(crate::specs::Steps::asks))]
    fn ask(
        &mut self,
        alloc: Global,
        number: u64,
        asked: Asked,
        call: Call,
        text: &mut Vec<u8>,
    ) -> Result<(), AllocError>
        requires room { self.old.bads < number }
        requires empty { text.old.items ≡ [] }
        ensures after { OnOk result (IsAfter (asks (told self.old) number asked call)
            (told self.new) text.new.items) }
        ensures counted { OnOk result (self.new.bads ≤ self.old.bads + 1) }
    {
        if !self.has_room() {
            return self.refuse(alloc, number, Cause::Fault(Fault::LogFull), text);
        }
        self.keep(number, asked)?;
        self.call(alloc, number, asked.seat, call, text)
    }

    // Keeps where a lock is asked for.
    fn keep(&mut self, number: u64, asked: Asked) -> Result<(), AllocError>
        ensures { OnOk result (told self.new
            ≡ with_spot (told self.old) (spot_of (told self.old) number asked)) }
    {
        let spot = self.spot_of(number, asked);
        self.spots.push(spot)?;
        Ok(())
    }

    // Whether there is room for one more place.
    fn has_room(&self) -> bool
        ensures { result ≡ has_room (told self.now) }
    {
        (self.spots.len() as u64) < MOST_SPOTS
    }

    // The place that is told next.
    #[tactic(auto, unfolding(crate::specs::Steps::next_site))]
    fn next_site(&self) -> Site
        ensures { result ≡ next_site (told self.now) }
    {
        let line = if self.has_room() {
            self.spots.len() as u32 + 1
        } else {
            0
        };
        Site {
            file: FileNo(1),
            line,
        }
    }

    fn spot_of(&self, number: u64, asked: Asked) -> Spot
        ensures { result ≡ spot_of (told self.now) number asked }
    {
        Spot {
            line: number,
            seat: asked.seat,
            thread: self.thread_of(asked.seat),
            place: asked.place,
            stack: asked.stack,
        }
    }

    // Makes a lock of the type with this number. It is counted whether it was made or not.
    fn make(
        &mut self,
        alloc: Global,
        number: u64,
        seat: SeatNo,
        class: Class,
        recursive: bool,
        of: u32,
        text: &mut Vec<u8>,
    ) -> Result<(), AllocError>
        requires room { self.old.bads < number }
        requires empty { text.old.items ≡ [] }
        ensures after { OnOk result (IsAfter (makes (told self.old) number seat.0 class recursive
            (named_type (told self.old).names of)) (told self.new) text.new.items) }
        ensures counted { OnOk result (self.new.bads ≤ self.old.bads + 1) }
    {
        let Some(name) = named_type(&self.names, of) else {
            self.locks.push(0)?;
            return self.refuse(alloc, number, Cause::Fault(Fault::BadName), text);
        };
        let lock = NewLock {
            class,
            flags: LockFlags(if recursive { 1 } else { 0 }),
            name: name.copy(alloc)?,
            type_name: None,
        };
        let call = Call::Init(Boxed::new(alloc, lock)?);
        match self.verifier.call(seat, call) {
            Ok(Reply::Made(lock)) => {
                self.made.push(self.locks.len() as u64 + 1)?;
                self.locks.push(lock.0)?;
                Ok(())
            }
            Ok(_) => {
                self.locks.push(0)?;
                Ok(())
            }
            Err(Fault::OutOfMemory) => Err(AllocError),
            Err(fault) => {
                self.locks.push(0)?;
                self.refuse(alloc, number, Cause::Fault(fault), text)
            }
        }
    }

    // Gives types their name.
    fn name(
        &mut self,
        alloc: Global,
        number: u64,
        of: u32,
        name: Name,
        text: &mut Vec<u8>,
    ) -> Result<(), AllocError>
        requires room { self.old.bads < number }
        requires empty { text.old.items ≡ [] }
        ensures after { OnOk result (IsAfter (names (told self.old) number of name)
            (told self.new) text.new.items) }
        ensures counted { OnOk result (self.new.bads ≤ self.old.bads + 1) }
    {
        if named_type(&self.names, of).is_some() {
            return self.refuse(alloc, number, Cause::Syntax, text);
        }
        self.names.push((of, name))?;
        Ok(())
    }

    // A seat is a thread's from here on.
    fn seat(
        &mut self,
        alloc: Global,
        number: u64,
        seat: SeatNo,
        thread: u32,
        text: &mut Vec<u8>,
    ) -> Result<(), AllocError>
        requires room { self.old.bads < number }
        requires empty { text.old.items ≡ [] }
        ensures after { OnOk result (IsAfter (seats (told self.old) number seat.0 thread)
            (told self.new) text.new.items) }
        ensures counted { OnOk result (self.new.bads ≤ self.old.bads + 1) }
    {
        let place = seat.0 as usize;
        if place == 0 || place > self.threads.len() {
            return self.refuse(alloc, number, Cause::Fault(Fault::UnknownSeat), text);
        }
        self.threads[place - 1] = thread;
        Ok(())
    }
}

// The report of that line.
fn report_at(reports: &[Reported], line: u32) -> Option<&Reported>
    ensures { option_copied result ≡ report_at reports.now line }
{
    reports.iter().find(|report| report.line == u64::from(line))
}

fn cause_text(cause: Cause) -> &'static str
    ensures { result.now ≡ cause_text cause }
{
    match cause {
        Cause::Long => "long",
        Cause::Cut => "cut",
        Cause::Syntax => "syntax",
        Cause::Version => "version",
        Cause::Limit => "limit",
        Cause::Fault(fault) => fault.text(),
    }
}
