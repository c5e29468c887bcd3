//! The keywords of lines, for the reader and the printer.

ghost use Rattle.std.specs.Prelude.{◌≡◌, None, IfSome};
ghost use Rattle.wit_model.specs.Trace.Reading.{keyword_named};
ghost use Rattle.wit_model.specs.Trace.Spelling.{keyword_text, verb_text};
ghost use Rattle.wit_grammar.specs.Lines.{header_keyword};

use wit_model::{Keyword, Verb};

const HEADER: &[u8] = b"witness-trace";

const PROFILE: &[u8] = b"profile";

const ORDER: &[u8] = b"order";

const BLESS: &[u8] = b"bless";

const INIT: &[u8] = b"init";

const CHECK: &[u8] = b"check";

const TRY: &[u8] = b"try";

const UNLOCK: &[u8] = b"unlock";

const NOTE: &[u8] = b"lock";

const GIVE_UP: &[u8] = b"giveup";

const DESTROY: &[u8] = b"destroy";

const UPGRADE: &[u8] = b"upgrade";

const DOWNGRADE: &[u8] = b"downgrade";

const NO_RELEASE: &[u8] = b"norelease";

const RELEASE_OK: &[u8] = b"releaseok";

const TAKE: &[u8] = b"take";

const TRY_TAKE: &[u8] = b"trytake";

const FREE: &[u8] = b"free";

const RAW_UP: &[u8] = b"rawup";

const RAW_DOWN: &[u8] = b"rawdown";

const ASSERT: &[u8] = b"assert";

const WARN: &[u8] = b"warn";

const DEFINE: &[u8] = b"define";

const WATCH: &[u8] = b"watch";

/// The keyword that a word is.
#[inline(always)]
pub fn keyword_of(word: &[u8]) -> Option<Keyword>
    ensures { result ≡ keyword_named word.now }
{
    match compared(word) {
        Some(keyword) => Some(keyword),
        None => header_keyword(word),
    }
}

fn header_keyword(word: &[u8]) -> Option<Keyword>
    ensures { result ≡ header_keyword word.now }
{
    if word == HEADER {
        Some(Keyword::Header)
    } else {
        None
    }
}

// The keyword that a word is, but for that of the header. It is compared in place, byte by byte,
// which is faster than by `==`.
#[tactic(auto, unfolding(wit_model::specs::Trace::Reading::keyword_named))]
#[inline(always)]
fn compared(word: &[u8]) -> Option<Keyword>
    ensures some { IfSome result (λ k. word.now ≡ keyword_text k) }
    ensures none { result ≡ None → keyword_named word.now ≡ header_keyword word.now }
{
    match word {
        CHECK => Some(Keyword::Check),
        NOTE => Some(Keyword::Plain(Verb::Note)),
        UNLOCK => Some(Keyword::Unlock),
        TRY => Some(Keyword::Try),
        GIVE_UP => Some(Keyword::Plain(Verb::GiveUp)),
        DESTROY => Some(Keyword::Plain(Verb::Destroy)),
        UPGRADE => Some(Keyword::Plain(Verb::Upgrade)),
        DOWNGRADE => Some(Keyword::Plain(Verb::Downgrade)),
        NO_RELEASE => Some(Keyword::Plain(Verb::NoRelease)),
        RELEASE_OK => Some(Keyword::Plain(Verb::ReleaseOk)),
        TAKE => Some(Keyword::Take),
        FREE => Some(Keyword::Free),
        TRY_TAKE => Some(Keyword::TryTake),
        RAW_UP => Some(Keyword::RawUp),
        RAW_DOWN => Some(Keyword::RawDown),
        INIT => Some(Keyword::Init),
        ASSERT => Some(Keyword::Assert),
        WARN => Some(Keyword::Warn),
        DEFINE => Some(Keyword::Define),
        WATCH => Some(Keyword::Watch),
        ORDER => Some(Keyword::Order),
        BLESS => Some(Keyword::Bless),
        PROFILE => Some(Keyword::Profile),
        _ => None,
    }
}

/// The word that a keyword is.
pub fn keyword_text(keyword: Keyword) -> &'static [u8]
    ensures { result.now ≡ keyword_text keyword }
{
    match keyword {
        Keyword::Header => HEADER,
        Keyword::Profile => PROFILE,
        Keyword::Order => ORDER,
        Keyword::Bless => BLESS,
        Keyword::Init => INIT,
        Keyword::Check => CHECK,
        Keyword::Try => TRY,
        Keyword::Unlock => UNLOCK,
        Keyword::Plain(verb) => verb_text(verb),
        Keyword::Take => TAKE,
        Keyword::TryTake => TRY_TAKE,
        Keyword::Free => FREE,
        Keyword::RawUp => RAW_UP,
        Keyword::RawDown => RAW_DOWN,
        Keyword::Assert => ASSERT,
        Keyword::Warn => WARN,
        Keyword::Define => DEFINE,
        Keyword::Watch => WATCH,
    }
}

fn verb_text(verb: Verb) -> &'static [u8]
    ensures { result.now ≡ verb_text verb }
{
    match verb {
        Verb::Note => NOTE,
        Verb::GiveUp => GIVE_UP,
        Verb::Destroy => DESTROY,
        Verb::Upgrade => UPGRADE,
        Verb::Downgrade => DOWNGRADE,
        Verb::NoRelease => NO_RELEASE,
        Verb::ReleaseOk => RELEASE_OK,
    }
}
