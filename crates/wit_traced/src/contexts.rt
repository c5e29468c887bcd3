//! In which context something happens.

ghost use Rattle.std.specs.Prelude.{◌≡◌};
ghost use Rattle.wit_traced.specs.Contexts.{context_of, masked_of, preemption_of};

/// Who holds locks by itself: a task, or an interrupt of a processor.
#[derive(Clone, Copy, Debug, PartialEq, Eq)]
pub enum Context {
    /// The task with this number.
    Task(u64),
    /// The idle task of a processor.
    Idle(u64),
    /// A soft interrupt of a processor.
    Softirq(u64),
    /// A hard interrupt of a processor.
    Hardirq(u64),
}

/// Which interrupts can't come.
#[derive(Clone, Copy, Debug, PartialEq, Eq)]
pub enum Masked {
    /// All may come.
    Nothing,
    /// No soft one.
    Softirqs,
    /// None, or it isn't told.
    All,
}

/// Whether the processor may go on to another task.
#[derive(Clone, Copy, Debug, PartialEq, Eq)]
pub enum Preemption {
    /// It may: so the task holds no lock that spins, where the kernel counts these.
    On,
    /// It may not.
    Off,
    /// It isn't told.
    Untold,
}

/// The context, by the flags of a line.
pub fn context_of(task: u64, processor: u64, flags: &[u8]) -> Context
    ensures { result ≡ context_of task processor flags.now }
{
    match flags {
        [_, _, b'h' | b'H' | b'z' | b'Z', ..] => Context::Hardirq(processor),
        [_, _, b's', ..] => Context::Softirq(processor),
        _ if task == 0 => Context::Idle(processor),
        _ => Context::Task(task),
    }
}

/// Which interrupts can't come, by the flags of a line.
pub fn masked_of(flags: &[u8]) -> Masked
    ensures { result ≡ masked_of flags.now }
{
    match flags {
        [] | [b'd' | b'D' | b'X', ..] => Masked::All,
        [b'b', ..] => Masked::Softirqs,
        _ => Masked::Nothing,
    }
}

/// Whether the processor may go on to another task, by the flags of a line.
pub fn preemption_of(flags: &[u8]) -> Preemption
    ensures { result ≡ preemption_of flags.now }
{
    match flags {
        [_, _, _, b'.', ..] => Preemption::On,
        [_, _, _, _, ..] => Preemption::Off,
        _ => Preemption::Untold,
    }
}
