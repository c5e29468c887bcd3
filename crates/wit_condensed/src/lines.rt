//! The lines that the recorder is to write.

ghost use Rattle.std.specs.Prelude.{◌≡◌, ◌<◌, ◌≤◌, length, take, drop};
ghost use Rattle.wit_condensed.specs.Lines.{kind_number, line_of, link_kind, request_lines};

use crate::chain::{Link, MOST_LINKS};

/// What a line says.
#[derive(Clone, Copy)]
pub enum Kind {
    /// The thread asked for a lock that it holds, and got it: `AskedAndGot` is 0.
    AskedAndGot,
    /// It got a lock that it holds by a try: 1.
    Tried,
    /// It asks for a lock: 2.
    Asks,
}

/// A line.
#[repr(C)]
#[derive(Clone, Copy)]
pub struct Line {
    /// Which link of the chain it is of, from 0. The request's own has the chain's length.
    pub link: u32,
    /// The number of its kind.
    pub kind: u8,
}

impl Line {
    fn of(link: u32, kind: Kind) -> Line
        ensures { result ≡ line_of link kind }
    {
        Line {
            link,
            kind: kind as u8,
        }
    }
}

fn link_kind(link: &Link) -> Kind
    ensures { result ≡ link_kind link.now }
{
    if link.tried {
        Kind::Tried
    } else {
        Kind::AskedAndGot
    }
}

/// Puts the lines of a request by a thread that has this chain into a buffer: how many there are.
pub fn put_lines(links: &[Link], lines: &mut [Line]) -> usize
    requires links { length links.now ≤ MOST_LINKS }
    requires room { length links.now < length lines.old }
    ensures within { result ≤ length lines.old }
    ensures put { take result lines.new ≡ request_lines links.now }
    ensures rest { drop result lines.new ≡ drop result lines.old }
{
    let mut count = 0;
    'links: for i in 0..links.len() {
        let link = &links[i];
        if !link.written {
            lines[count] = Line::of(i as u32, link_kind(link));
            count += 1;
        }
    }
    lines[count] = Line::of(links.len() as u32, Kind::Asks);
    count + 1
}
