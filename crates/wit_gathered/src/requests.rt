//! Requests, and whether a pair of types is new.

ghost use Rattle.std.specs.Prelude.{◌≡◌, ◌++◌, OnOk};
ghost use Rattle.wit_gathered.specs.Requests.{after_asking, after_twice, are_known, counts, has_pair};
ghost use Rattle.wit_gathered.specs.Requests.{interrupt_steps, nothing_requested, own_steps};
ghost use Rattle.wit_gathered.specs.Requests.{requested, same_type, steps_under, with_asking};
ghost use Rattle.wit_gathered.specs.Requests.{with_pair, with_pairs};

use crate::holds::{Hold, interrupt_of, same_context};
use crate::types::Type;
use indexmap::IndexSet;
use std::alloc::{AllocError, Global};
use std::marker::Model;
use wit_traced::Context;

/// What stands for the place at which an interrupt begins.
pub const NO_PLACE: usize = usize::MAX;

/// A type that is held or asked for, and where.
#[derive(Clone, Copy, Debug, PartialEq, Eq, Hash)]
pub struct Step {
    pub of: Type,
    /// The place's number.
    pub place: usize,
    /// It wasn't waited for.
    pub tried: bool,
}

/// What somebody asked for, and what it held, oldest first.
#[derive(Debug, Drop)]
pub struct Request {
    held: Vec<Step>,
    asked: Step,
}

impl Model for Request {
    ghost use Rattle.wit_gathered.specs.Asking.{Asking};

    ghost Value = { Asking };

    ghost view = { λ r. record { held = r.held.items; asked = r.asked } };
}

impl Request {
    /// What it held, oldest first.
    pub fn held(&self) -> &[Step]
        ensures { result.now ≡ self.now.held }
    {
        self.held.as_slice()
    }

    /// What it asked for.
    pub fn asked(&self) -> Step
        ensures { result ≡ self.now.asked }
    {
        self.asked
    }
}

/// What is kept to be told.
#[derive(Debug, Drop)]
pub enum Kept {
    /// A request.
    Asks(Request),
    /// The release of a lock that nobody holds, and that was held before.
    Twice(Step),
}

/// The pairs of types that were asked for, and what is kept of it.
#[derive(Drop)]
pub struct Requests {
    alloc: Global,
    pairs: IndexSet<(Type, Type)>,
    twice: IndexSet<Step>,
    pub kept: Vec<Kept>,
    /// What the request at hand is made under.
    steps: Vec<Step>,
}

impl Requests {
    /// None yet.
    pub fn new(alloc: Global) -> Requests
        ensures { requested result ≡ nothing_requested }
    {
        Requests {
            alloc,
            pairs: IndexSet::new(alloc),
            twice: IndexSet::new(alloc),
            kept: Vec::new(alloc),
            steps: Vec::new(alloc),
        }
    }

    /// Keeps a request where a pair of its types is new. With `nested` those of its own type are passed
    /// over: a lock over them keeps them in sequence.
    ///
    /// # Errors
    /// Want of memory alone.
    pub fn ask(
        &mut self,
        held: &[Hold],
        context: Context,
        interrupts: bool,
        asked: Step,
        nested: bool,
    ) -> Result<(), AllocError>
        ensures { OnOk result (requested self.new ≡ after_asking (requested self.old)
            (steps_under interrupts held.now context asked nested) asked) }
    {
        self.steps.clear();
        put_interrupt(&mut self.steps, context, interrupts)?;
        put_own(&mut self.steps, held, context, asked, nested)?;
        if are_known(&self.pairs, asked.of, self.steps.as_slice()) {
            return Ok(());
        }
        add_pairs(&mut self.pairs, asked.of, self.steps.as_slice())?;
        self.keep(asked)
    }

    // Keeps the request at hand.
    fn keep(&mut self, asked: Step) -> Result<(), AllocError>
        ensures { OnOk result (requested self.new ≡ with_asking (requested self.old)
            self.old.steps.items asked) }
    {
        let held = Vec::from_slice(self.alloc, self.steps.as_slice())?;
        self.kept.push(Kept::Asks(Request { held, asked }))?;
        Ok(())
    }

    /// Keeps a release of what nobody holds, once for each type and place.
    ///
    /// # Errors
    /// Want of memory alone.
    pub fn keep_twice(&mut self, released: Step) -> Result<(), AllocError>
        ensures { OnOk result (requested self.new ≡ after_twice (requested self.old) released) }
    {
        if self.twice.insert(released)? {
            self.kept.push(Kept::Twice(released))?;
        }
        Ok(())
    }
}

fn put_interrupt(
    steps: &mut Vec<Step>,
    context: Context,
    interrupts: bool,
) -> Result<(), AllocError>
    ensures { OnOk result (steps.new.items
        ≡ steps.old.items ++ interrupt_steps interrupts context) }
{
    if !interrupts {
        return Ok(());
    }
    let Some(of) = interrupt_of(context) else {
        return Ok(());
    };
    steps.push(Step {
        of,
        place: NO_PLACE,
        tried: true,
    })?;
    Ok(())
}

fn put_own(
    steps: &mut Vec<Step>,
    held: &[Hold],
    context: Context,
    asked: Step,
    nested: bool,
) -> Result<(), AllocError>
    ensures { OnOk result (steps.new.items
        ≡ steps.old.items ++ own_steps held.now context asked nested) }
{
    match held {
        [] => Ok(()),
        [hold, others @ ..] => {
            if is_asked_under(hold, context, asked, nested) {
                steps.push(hold.step)?;
            }
            put_own(steps, others, context, asked, nested)
        }
    }
}

fn is_asked_under(hold: &Hold, context: Context, asked: Step, nested: bool) -> bool
    ensures { result ≡ counts context asked nested hold.now }
{
    same_context(hold.context, context) && !(nested && same_type(hold.step.of, asked.of))
}

fn same_type(one: Type, other: Type) -> bool
    ensures { result ≡ same_type one other }
{
    match (one, other) {
        (Type::Hardirq, Type::Hardirq) | (Type::Softirq, Type::Softirq) => true,
        (Type::Of(one), Type::Of(other)) | (Type::ReadersOf(one), Type::ReadersOf(other)) => one
            == other,
        _ => false,
    }
}

// Whether each of them makes a pair with the type that is known.
fn are_known(pairs: &IndexSet<(Type, Type)>, asked: Type, steps: &[Step]) -> bool
    ensures { result ≡ are_known pairs.now.keys asked steps.now }
{
    match steps {
        [] => true,
        [step, others @ ..] => has_pair(pairs, step.of, asked) && are_known(pairs, asked, others),
    }
}

fn has_pair(pairs: &IndexSet<(Type, Type)>, held: Type, asked: Type) -> bool
    ensures { result ≡ has_pair pairs.now.keys held asked }
{
    pairs.contains(&(held, asked))
}

fn add_pairs(
    pairs: &mut IndexSet<(Type, Type)>,
    asked: Type,
    steps: &[Step],
) -> Result<(), AllocError>
    ensures { OnOk result (pairs.new.keys ≡ with_pairs pairs.old.keys asked steps.now) }
{
    match steps {
        [] => Ok(()),
        [step, others @ ..] => {
            add_pair(pairs, step.of, asked)?;
            add_pairs(pairs, asked, others)
        }
    }
}

fn add_pair(pairs: &mut IndexSet<(Type, Type)>, held: Type, asked: Type) -> Result<(), AllocError>
    ensures { OnOk result (pairs.new.keys ≡ with_pair pairs.old.keys held asked) }
{
    pairs.insert((held, asked))?;
    Ok(())
}
