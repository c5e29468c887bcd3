//! What a verifier shows, summed up. No memory is taken for it.

use std::io;
use std::io::Write;
use wit_core::Verifier;
use wit_model::{SeatNo, TypeNo};

/// A sum of all bytes that were written, by their order too: that of Fowler, Noll and Vo.
#[derive(Drop)]
struct Sum {
    sum: u64,
}

impl Write for Sum {
    fn write(&mut self, bytes: &[u8]) -> io::Result<usize> {
        for byte in bytes {
            self.sum = (self.sum ^ u64::from(*byte)).wrapping_mul(0x100_0000_01b3);
        }
        Ok(bytes.len())
    }

    fn flush(&mut self) -> io::Result<()> {
        Ok(())
    }
}

/// A number for all that a verifier shows: history, reports, orders, requests and chains.
pub(crate) fn sum_of(verifier: &Verifier) -> u64 {
    let mut sum = Sum {
        sum: 0xcbf2_9ce4_8422_2325,
    };
    for entry in verifier.history() {
        let _ = writeln!(sum, "{entry:?}");
    }
    let (orders, reports, watch) = (verifier.orders(), verifier.reports(), verifier.watch());
    let free = verifier.free_chunks();
    let _ = writeln!(sum, "{orders:?} {reports} {watch:?} {free}");
    add_relations(&mut sum, verifier);
    for seat in 1..=verifier.seats() {
        add_seat(&mut sum, verifier, SeatNo(seat));
    }
    sum.sum
}

// What types are to one another.
fn add_relations(sum: &mut Sum, verifier: &Verifier) {
    for first in 1..=verifier.most_types() {
        for second in 1..=verifier.most_types() {
            let relation = verifier.relation(TypeNo(first), TypeNo(second));
            let _ = write!(sum, "{relation:?}");
        }
    }
}

// What a seat asks for and holds.
fn add_seat(sum: &mut Sum, verifier: &Verifier, seat: SeatNo) {
    let pending = verifier.pending(seat);
    let _ = write!(sum, "{pending:?}");
    for spin in [false, true] {
        for place in 0..64 {
            let Some(held) = verifier.chain_at(seat, spin, place) else {
                break;
            };
            let _ = write!(sum, "{held:?}");
        }
    }
}
