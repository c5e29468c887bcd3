//! The verifier of lock orders.

ghost use Rattle.std.specs.Prelude.{◌≡◌, None, reverse, IfOk, IfErr, IfSome, Ok, true, length, nat_lt};
ghost use Rattle.wit_model.specs.Rules.Names.{is_file_name};
ghost use Rattle.wit_model.specs.declared.profiles.Profile.TheVariants.{Plain, AllHeld};
ghost use Rattle.wit_model.specs.Rules.Clean.{CleanMeansNoCircle};
ghost use Rattle.wit_model.specs.Rules.Files.{NamesFile};
ghost use Rattle.wit_model.specs.Rules.History.{reports_of, watch_of};
ghost use Rattle.wit_model.specs.Rules.Orders.{AreDistinct, IsSound};
ghost use Rattle.wit_model.specs.Rules.Start.{start_fault, IsRefused};
ghost use Rattle.wit_model.specs.Rules.State.{fresh, orders_of};
ghost use Rattle.wit_model.specs.Rules.Step.{IsLegal};
ghost use Rattle.wit_matrix.specs.Relation.{OrdersAmong};
ghost use Rattle.wit_known.specs.Fresh.{start_of};

use crate::log::Log;
use crate::ready::Ready;
use std::alloc::Global;
use std::marker::Model;
use wit_known::{Known, StartError};
use wit_model::{Adoption, Class, Entry, Fault, FileNo, Limits, Profile, Watch};
use wit_waiting::Seats;

/// A verifier of lock orders, as witness(4) describes it: it is told of each acquisition and
/// release, keeps what each seat holds, learns the orders in which types of locks are acquired, and
/// reports a reversal of a known order, which is a possible deadlock.
///
/// Clauses see it as how it began, its history, the files that were named to it, and the call that
/// is prepared. A refused call changes nothing of these.
pub struct Verifier {
    pub(crate) alloc: Global,
    pub(crate) limits: Limits,
    pub(crate) profile: Profile,
    lists: Vec<Vec<(Class, String)>>,
    pub(crate) known: Known,
    pub(crate) seats: Seats,
    pub(crate) watch: Watch,
    pub(crate) log: Log,
    /// The call that is prepared.
    pub(crate) ready: Option<Ready>,
}

// Written by hand so that it is one call wherever a verifier goes, and not one for each field of
// each field.
impl Drop for Verifier {
    fn drop(self) {
        let Verifier {
            alloc: _,
            limits: _,
            profile: _,
            lists: _,
            known: _,
            seats: _,
            watch: _,
            log: _,
            ready: _,
        } = self;
    }
}

impl Model for Verifier {
    ghost use Rattle.wit_model.specs.Rules.State.{Story};

    ghost Value = { Story };

    ghost use Rattle.wit_core.specs.Kept.{story_in, IsKept};

    ghost view = { story_in };

    ghost invariant = { IsKept };
}

impl Verifier {
    /// A verifier with these limits, static lists of types in order, and pairs of type names that
    /// may be taken in either order. The types of the lists get their numbers in the order of the
    /// lists, and the order of each two neighbours is adopted with the origin `Listed`. Watching is
    /// on, and its history is empty.
    ///
    /// # Errors
    /// The first list with a fault is named, where lists count from 1, with the first of these
    /// faults that is anywhere in it: `BadName`; `ClassMismatch` where a name has another class, in
    /// this list or before; `TypesFull` where it has more new names than there are numbers left;
    /// `KindMismatch` where it has both spin locks and others; `SameType` where two neighbours have
    /// one name; `WrongOrder` where, of two neighbours, the second is before the first, once those
    /// before them are adopted; `OutOfMemory`. Then, with 0 for the list, `BadName` where a blessed
    /// name is no name. `OutOfMemory` with 0 for the list, for what is made before and after the
    /// lists, may stand in place of any answer. Nothing is left of a refused start.
    pub fn new(
        alloc: Global,
        limits: Limits,
        lists: Vec<Vec<(Class, String)>>,
        blessed: Vec<(String, String)>,
    ) -> Result<Verifier, StartError>
        ensures ok { IfOk result (λ v.
            (start_fault (start_of Plain limits lists.items blessed.items) ≡ None)
            × (v ≡ fresh (start_of Plain limits lists.items blessed.items))) }
        ensures err { IfErr result (λ e. IsRefused (start_of Plain limits lists.items blessed.items)
            e.list e.fault) }
    {
        Verifier::start(alloc, Profile::Plain, limits, lists, blessed)
    }

    /// A verifier that compares a request with all locks of its kind that its seat holds, and not
    /// with the last one alone: what `new` says of its arguments, its errors and what it makes
    /// holds here too. It is for programs that try locks.
    ///
    /// # Errors
    /// Those of `new`.
    pub fn new_all_held(
        alloc: Global,
        limits: Limits,
        lists: Vec<Vec<(Class, String)>>,
        blessed: Vec<(String, String)>,
    ) -> Result<Verifier, StartError>
        ensures ok { IfOk result (λ v.
            (start_fault (start_of AllHeld limits lists.items blessed.items) ≡ None)
            × (v ≡ fresh (start_of AllHeld limits lists.items blessed.items))) }
        ensures err { IfErr result (λ e. IsRefused
            (start_of AllHeld limits lists.items blessed.items) e.list e.fault) }
    {
        Verifier::start(alloc, Profile::AllHeld, limits, lists, blessed)
    }

    // A verifier of a profile.
    fn start(
        alloc: Global,
        profile: Profile,
        limits: Limits,
        lists: Vec<Vec<(Class, String)>>,
        blessed: Vec<(String, String)>,
    ) -> Result<Verifier, StartError>
        ensures ok { IfOk result (λ v.
            (start_fault (start_of profile limits lists.items blessed.items) ≡ None)
            × (v ≡ fresh (start_of profile limits lists.items blessed.items))) }
        ensures err { IfErr result (λ e. IsRefused
            (start_of profile limits lists.items blessed.items) e.list e.fault) }
    {
        let types = limits.types();
        let mut known = Known::new(alloc, types)?;
        known.enter_lists(types, &lists)?;
        known.bless_all(&blessed)?;
        let seats = Seats::new(alloc, limits.seats(), limits.chunks())?;
        Ok(Verifier {
            alloc,
            limits,
            profile,
            lists,
            known,
            seats,
            watch: Watch::On,
            log: Log::new(alloc, limits.log()),
            ready: None,
        })
    }

    /// The number of a source file: a file that was named before keeps its number, a new one gets
    /// the next. The history stays.
    ///
    /// # Errors
    /// `BadName` where the text is no file name; `FilesFull` where it is new and 65,535 files have
    /// numbers; `OutOfMemory` where it is new. The files are then as before.
    pub fn file(&mut self, name: &str) -> Result<FileNo, Fault>
        ensures { NamesFile self.old name.now result self.new }
    {
        self.known.file(name)
    }

    /// The file that was named last: its number, and its name, which is a file name; `None` before
    /// any was. To name it again gives this number, and changes nothing.
    pub fn recent_file(&self) -> Option<(FileNo, &str)>
        ensures name { IfSome result (λ f. is_file_name f.1.now ≡ true) }
        ensures number { IfSome result (λ f. NamesFile self.now f.1.now (Ok f.0) self.now) }
    {
        self.known.names().recent_file()
    }

    /// The log: each accepted call with its seat and reply, oldest first. Each reply is the answer
    /// of the rules after the entries before it, behind a start that isn't refused. While it is
    /// clean (nothing was reported or tried, everything was watched, each check might teach its
    /// order, and nothing is excepted) no seats wait for one another in a circle, by what is
    /// recorded.
    pub fn history(&self) -> &[Entry]
        ensures log { reverse result.now ≡ self.now.history }
        ensures accepted { start_fault self.now.start ≡ None }
        ensures legal { IsLegal self.now.start self.now.files self.now.history }
        ensures apart { CleanMeansNoCircle self.now }
    {
        self.log.entries()
    }

    /// Which held locks a request is compared with.
    pub fn profile(&self) -> Profile
        ensures { result ≡ self.now.start.profile }
    {
        self.profile
    }

    /// Whether any pair of type names may be taken in either order.
    pub fn blesses(&self) -> bool
        ensures { result ≡ nat_lt 0 (length self.now.start.blessed) }
    {
        self.known.names().blesses()
    }

    /// How many reports the log has.
    pub fn reports(&self) -> u32
        ensures { result ≡ reports_of self.now.history }
    {
        self.log.reports()
    }

    /// How much is watched: all at the start.
    pub fn watch(&self) -> Watch
        ensures { result ≡ watch_of self.now.history }
    {
        self.watch
    }

    /// The adopted orders with their origins, oldest first: those of static lists, then those that
    /// calls taught. All are between numbers of types, none stands twice, and by them no type is
    /// before itself.
    pub fn orders(&self) -> &[Adoption]
        ensures orders { reverse result.now ≡ orders_of self.now.start self.now.history }
        ensures among { OrdersAmong self.now.start.sizes.types
            (orders_of self.now.start self.now.history) }
        ensures distinct { AreDistinct (orders_of self.now.start self.now.history) }
        ensures sound { IsSound (orders_of self.now.start self.now.history) }
    {
        self.known.orders().adopted()
    }
}
