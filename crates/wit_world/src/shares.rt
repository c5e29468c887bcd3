//! The shares of one lock.

ghost use Rattle.std.specs.Prelude.{◌≡◌, ◌<◌, ◌^◌, ◌-◌, length, OnOk, OnErr};
ghost use Rattle.std.specs.List.{list_all, position, remove};
ghost use Rattle.wit_model.specs.World.Scenes.{nobodys, shares_among, is_admitted, is_only};
ghost use Rattle.wit_model.specs.World.Scenes.{one_more, one_fewer};
ghost use Rattle.wit_world.specs.Holders.{all_had, is_holder};

use std::alloc::{AllocError, Global};
use std::marker::Model;
use wit_model::{Mode, SeatNo};

/// How many shares a seat has.
#[derive(Clone, Copy, Debug)]
pub struct Holder {
    seat: SeatNo,
    count: u64,
}

/// Who has how many shares of a lock, and in which mode.
#[derive(Drop)]
pub struct Shares {
    mode: Mode,
    holders: Vec<Holder>,
}

impl Model for Shares {
    ghost use Rattle.wit_model.specs.World.Scenes.{RawLock};

    ghost Value = { RawLock };

    ghost use Rattle.wit_world.specs.Shares.{shares_in};

    ghost view = { shares_in };
}

impl Shares {
    /// Nobody has a share.
    pub fn none(alloc: Global) -> Shares
        ensures { result ≡ nobodys }
    {
        Shares {
            mode: Mode::Exclusive,
            holders: Vec::new(alloc),
        }
    }

    /// Whether the lock may be had in this mode: exclusively where nobody has it, shared where
    /// nobody has it exclusively.
    pub fn is_admitted(&self, mode: Mode) -> bool
        ensures { result ≡ is_admitted mode self.now }
    {
        if self.holders.is_empty() {
            return true;
        }
        !mode.is_exclusive() && !self.mode.is_exclusive()
    }

    /// The mode in which its holders have it.
    pub fn mode(&self) -> Mode
        ensures { result ≡ self.now.mode }
    {
        self.mode
    }

    /// How many shares a seat has.
    pub fn of(&self, seat: SeatNo) -> u64
        ensures { result ≡ shares_among seat.0 self.now.holders }
    {
        match place_of(&self.holders, seat) {
            Some(place) => self.holders[place].count,
            None => 0,
        }
    }

    /// Whether a seat has the only share.
    pub fn is_only(&self, seat: SeatNo) -> bool
        ensures { result ≡ is_only seat.0 self.now }
    {
        if self.of(seat) != 1 {
            return false;
        }
        are_all(&self.holders, seat)
    }
}

impl Shares {
    /// A seat gets a share more, and all are in this mode.
    ///
    /// # Errors
    /// Want of memory alone; nothing is changed then.
    pub fn add(&mut self, seat: SeatNo, mode: Mode) -> Result<(), AllocError>
        requires few { shares_among seat.0 self.old.holders < 2 ^ 64 - 1 }
        ensures ok { OnOk result (self.new
            ≡ record { mode = mode; holders = one_more seat.0 self.old.holders }) }
        ensures err { OnErr result (self.new ≡ self.old) }
    {
        add_one(&mut self.holders, seat)?;
        self.mode = mode;
        Ok(())
    }

    /// A seat has one share fewer; none where it had none.
    pub fn remove(&mut self, seat: SeatNo)
        ensures { self.new ≡ record self.old { holders = one_fewer seat.0 self.old.holders } }
    {
        remove_one(&mut self.holders, seat);
    }

    /// All shares are in this mode.
    pub fn turn(&mut self, mode: Mode)
        ensures { self.new ≡ record self.old { mode = mode } }
    {
        self.mode = mode;
    }
}

// A seat has one share more among these.
fn add_one(holders: &mut Vec<Holder>, seat: SeatNo) -> Result<(), AllocError>
    requires few { shares_among seat.0 (all_had holders.old.items) < 2 ^ 64 - 1 }
    ensures ok { OnOk result (all_had holders.new.items
        ≡ one_more seat.0 (all_had holders.old.items)) }
    ensures err { OnErr result (holders.new.items ≡ holders.old.items) }
{
    let Some(place) = place_of(holders, seat) else {
        holders.push(Holder { seat, count: 1 })?;
        return Ok(());
    };
    holders[place].count += 1;
    Ok(())
}

// It has one fewer; none where it had none.
fn remove_one(holders: &mut Vec<Holder>, seat: SeatNo)
    ensures { all_had holders.new.items ≡ one_fewer seat.0 (all_had holders.old.items) }
{
    let Some(place) = place_of(holders, seat) else {
        return;
    };
    if 1 < holders[place].count {
        holders[place].count -= 1;
    } else {
        leave_out(holders, place);
    }
}

// One of these goes, and the others keep their order. The last one, as the only one is, leaves
// nothing to be moved.
#[inline(always)]
fn leave_out(holders: &mut Vec<Holder>, place: usize)
    requires { place < length holders.old.items }
    ensures { holders.new.items ≡ remove holders.old.items place }
{
    if place + 1 == holders.len() {
        let _last = holders.pop();
    } else {
        move_up(holders, place);
    }
}

// By itself, so that one who alone has a lock doesn't pay for it.
#[inline(never)]
fn move_up(holders: &mut Vec<Holder>, place: usize)
    requires { place < length holders.old.items }
    ensures { holders.new.items ≡ remove holders.old.items place }
{
    let _gone = holders.remove(place);
}

// Whether all of these are of a seat.
fn are_all(holders: &[Holder], seat: SeatNo) -> bool
    ensures { result ≡ list_all (is_holder seat.0) holders.now }
{
    holders.iter().all(|holder| holder.seat.0 == seat.0)
}

// Where a seat stands among the holders.
fn place_of(holders: &[Holder], seat: SeatNo) -> Option<usize>
    ensures { result ≡ position (is_holder seat.0) holders.now }
{
    holders.iter().position(|holder| holder.seat.0 == seat.0)
}
