//! The prelude of a trace.

ghost use Rattle.std.specs.Prelude.{◌≡◌, ◌||◌, None, nat_lt, length, unwrap_or, IfOk, IfErr, OnOk};
ghost use Rattle.wit_model.specs.Rules.Numbers.{with_number};
ghost use Rattle.wit_known.specs.Listed.{listed};
ghost use Rattle.wit_model.specs.Trace.Output.{Opening, empty_prelude, entered, is_prelude};
ghost use Rattle.wit_model.specs.Trace.Output.{is_profile, with_list, with_pair};
ghost use Rattle.wit_model.specs.Rules.Start.{start_fault, IsRefused};
ghost use Rattle.wit_known.specs.Fresh.{start_of};
ghost use Rattle.wit_model.specs.Rules.State.{fresh};
ghost use Rattle.wit_lines.specs.Replays.{IsVerifierOf, GoesAsDue, prelude_of};

use std::alloc::{AllocError, Global};
use wit_core::{StartError, Verifier};
use wit_grammar::LineError;
use wit_model::{Cause, Class, Fault, Limits, Line, Name, Profile, TypeList, Version};

/// What a prelude says so far: the version of the format, how the verifier is to start, and where
/// each list stands.
#[derive(Drop)]
pub struct Prelude {
    version: Version,
    profile: Profile,
    limits: Limits,
    lists: Vec<Vec<(Class, String)>>,
    /// The number of each list's line.
    lines: Vec<u64>,
    blessed: Vec<(String, String)>,
}

impl Prelude {
    /// The version of the format.
    pub fn version(&self) -> Version
        ensures { result ≡ (prelude_of self.now).version }
    {
        self.version
    }

    /// Whether it blesses a pair so far.
    pub fn blesses(&self) -> bool
        ensures { result ≡ nat_lt 0 (length (prelude_of self.now).start.blessed) }
    {
        !self.blessed.is_empty()
    }
}

/// A prelude that says nothing but the version and the limits.
pub fn new_prelude(alloc: Global, version: Version, limits: Limits) -> Prelude
    ensures { prelude_of result ≡ empty_prelude version limits }
{
    Prelude {
        version,
        profile: Profile::Plain,
        limits,
        lists: Vec::new(alloc),
        lines: Vec::new(alloc),
        blessed: Vec::new(alloc),
    }
}

/// Whether a line, with its number, stands in the prelude: its first six bytes decide it, but for
/// the second line, which may name a profile.
pub fn is_prelude(number: u64, line: &[u8]) -> bool
    ensures { result ≡ (is_prelude line.now || is_profile number line.now) }
{
    begins_prelude(line) || is_profile(number, line)
}

fn begins_prelude(line: &[u8]) -> bool
    ensures { result ≡ is_prelude line.now }
{
    line.starts_with(b"order ") || line.starts_with(b"bless ")
}

fn is_profile(number: u64, line: &[u8]) -> bool
    ensures { result ≡ is_profile number line.now }
{
    number == 2 && line == b"profile all".as_slice()
}

/// A line of the prelude adds its list or its pair.
///
/// # Errors
/// `Bad` where it is no line of the prelude; `Memory`.
pub fn add_line(
    alloc: Global,
    prelude: &mut Prelude,
    number: u64,
    line: Line,
) -> Result<Vec<u8>, LineError>
    ensures { GoesAsDue (entered (Opening (prelude_of prelude.old)) number line)
        (Opening (prelude_of prelude.old)) (Opening (prelude_of prelude.new)) result }
{
    match line {
        Line::Profile => prelude.profile = Profile::AllHeld,
        Line::Order { list } => add_list(alloc, prelude, number, list)?,
        Line::Bless { first, second } => add_pair(prelude, first, second)?,
        _ => return Err(LineError::SYNTAX),
    }
    Ok(Vec::new(alloc))
}

fn add_list(
    alloc: Global,
    prelude: &mut Prelude,
    number: u64,
    list: TypeList,
) -> Result<(), AllocError>
    ensures { OnOk result (prelude_of prelude.new
        ≡ with_list (prelude_of prelude.old) number list) }
{
    prelude.lists.push(names_of(alloc, list)?)?;
    prelude.lines.push(number)?;
    Ok(())
}

fn add_pair(prelude: &mut Prelude, first: Name, second: Name) -> Result<(), AllocError>
    ensures { OnOk result (prelude_of prelude.new
        ≡ with_pair (prelude_of prelude.old) first second) }
{
    let pair = (first.into_string(), second.into_string());
    prelude.blessed.push(pair)?;
    Ok(())
}

#[tactic(auto, using(crate::proofs::ListedTypes::listed_next, crate::proofs::ListedTypes::listed_all))]
fn names_of(alloc: Global, list: TypeList) -> Result<Vec<(Class, String)>, AllocError>
    ensures { IfOk result (λ types. listed types.items ≡ list) }
{
    let mut types = Vec::new(alloc);
    for (class, name) in list.into_types() {
        types.push((class, name.into_string()))?;
    }
    Ok(types)
}

/// The verifier that the prelude asks for, or the number of the first line whose list is refused,
/// and why.
///
/// # Errors
/// Want of memory alone.
pub fn verifier_of(
    alloc: Global,
    prelude: Prelude,
) -> Result<Result<Verifier, (u64, Cause)>, AllocError>
    ensures { IfOk result (IsVerifierOf (prelude_of prelude)
        (start_fault (prelude_of prelude).start)) }
{
    let made = make(
        alloc,
        prelude.profile,
        prelude.limits,
        prelude.lists,
        prelude.blessed,
    );
    match made {
        Ok(verifier) => Ok(Ok(verifier)),
        Err(
            StartError {
                fault: Fault::OutOfMemory,
                ..
            },
        ) => Err(AllocError),
        Err(StartError { list, fault }) => {
            let number = line_of_list(&prelude.lines, list);
            Ok(Err((number, Cause::Fault(fault))))
        }
    }
}

// A verifier of a profile.
fn make(
    alloc: Global,
    profile: Profile,
    limits: Limits,
    lists: Vec<Vec<(Class, String)>>,
    blessed: Vec<(String, String)>,
) -> Result<Verifier, StartError>
    ensures ok { IfOk result (λ v.
        (start_fault (start_of profile limits lists.items blessed.items) ≡ None)
        × (v ≡ fresh (start_of profile limits lists.items blessed.items))) }
    ensures err { IfErr result (λ e. IsRefused (start_of profile limits lists.items blessed.items)
        e.list e.fault) }
{
    match profile {
        Profile::Plain => Verifier::new(alloc, limits, lists, blessed),
        Profile::AllHeld => Verifier::new_all_held(alloc, limits, lists, blessed),
    }
}

/// The number of a list's line, where lists count from 1; 0 for no list.
fn line_of_list(lines: &[u64], list: u64) -> u64
    ensures { result ≡ unwrap_or (with_number lines.now list) 0 }
{
    if list == 0 {
        return 0;
    }
    match lines.get(list as usize - 1) {
        Some(number) => *number,
        None => 0,
    }
}
