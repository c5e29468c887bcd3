//! What somebody claims of a gate's word.

use wit_model::Mode;

/// So many shares and so many exclusive holds; a ticket's is one of the one or of the other. Who
/// claims nothing may know the word that its latest step met, or in which mode it gave its ticket
/// back. No value of it is made.
pub struct Claim {
    pub shares: u64,
    pub exclusives: u64,
    pub met: u64,
    pub gave: Option<Mode>,
}
