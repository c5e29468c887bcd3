//! Which threads can't be there at the same time when they do what they did.

ghost use Rattle.std.specs.Prelude.{◌≡◌, length};
ghost use Rattle.std.specs.List.{list_any};
ghost use Rattle.std.specs.Option.{option_copied};
ghost use Rattle.wit_alarms.specs.Lives.{is_thread, are_two, life_of, makings, made_since};
ghost use Rattle.wit_alarms.specs.Lives.{descends_since, ends_before, is_apart_by_join};
ghost use Rattle.wit_alarms.specs.Lives.{is_apart_by_making, is_apart, are_apart};

use crate::facts::{Fact, Join, Life, Lives, ThreadNo};

// Whether it is known to be this thread.
fn is_thread(thread: ThreadNo, known: Option<ThreadNo>) -> bool
    ensures { result ≡ is_thread thread.0 known }
{
    match known {
        Some(known) => known == thread,
        None => false,
    }
}

/// Whether they are two threads, as far as it is known.
pub fn are_two(one: Option<ThreadNo>, other: Option<ThreadNo>) -> bool
    ensures { result ≡ are_two one other }
{
    match one {
        Some(thread) => !is_thread(thread, other),
        None => true,
    }
}

fn life_of(lives: &[Life], thread: ThreadNo) -> Option<&Life>
    ensures { option_copied result ≡ life_of lives.now thread.0 }
{
    lives.iter().find(|life| life.thread == thread)
}

// Whether this was by that thread, and so late.
fn is_made_since(life: &Life, maker: Option<ThreadNo>, at: u64) -> bool
    ensures { result ≡ made_since maker at life.now }
{
    is_thread(life.maker, maker) && at <= life.made_at as u64
}

// Whether the thread, or one that it descends from, was made by this one, and so late.
fn was_made_since(lives: &[Life], thread: ThreadNo, maker: Option<ThreadNo>, at: u64) -> bool
    ensures { result ≡ list_any (made_since maker at)
        (makings lives.now (length lives.now) thread.0) }
{
    let mut younger = thread;
    for _ in 0..lives.len() {
        let Some(life) = life_of(lives, younger) else {
            return false;
        };
        if is_made_since(life, maker, at) {
            return true;
        }
        younger = life.maker;
    }
    false
}

fn descends_since(lives: &Lives, thread: Option<ThreadNo>, maker: Option<ThreadNo>, at: u64) -> bool
    ensures { result ≡ descends_since lives.now thread maker at }
{
    match thread {
        Some(thread) => was_made_since(&lives.made, thread, maker, at),
        None => false,
    }
}

fn ends_before(lives: &Lives, one: &Fact, other: &Fact, join: &Join) -> bool
    ensures { result ≡ ends_before lives.now one.now other.now join.now }
{
    is_thread(join.thread, one.thread)
        && ((is_thread(join.by, other.thread) && join.at < other.first)
            || descends_since(lives, other.thread, Some(join.by), join.at as u64 + 1))
}

fn is_apart_by_join(lives: &Lives, one: &Fact, other: &Fact) -> bool
    ensures { result ≡ is_apart_by_join lives.now one.now other.now }
{
    lives
        .joined
        .iter()
        .any(|join| ends_before(lives, one, other, join))
}

fn is_apart_by_making(lives: &Lives, one: &Fact, other: &Fact) -> bool
    ensures { result ≡ is_apart_by_making lives.now one.now other.now }
{
    descends_since(lives, other.thread, one.thread, one.last as u64)
}

fn is_apart(lives: &Lives, one: &Fact, other: &Fact) -> bool
    ensures { result ≡ is_apart lives.now one.now other.now }
{
    is_apart_by_join(lives, one, other) || is_apart_by_making(lives, one, other) || one.last == 0
}

/// Whether the two threads can't be there at the same time when they do so: one was joined before
/// the other did so, or did so for the last time before the other was made, or before any was.
pub fn are_apart(lives: &Lives, one: &Fact, other: &Fact) -> bool
    ensures { result ≡ are_apart lives.now one.now other.now }
{
    is_apart(lives, one, other) || is_apart(lives, other, one)
}
