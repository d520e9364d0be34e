// The fixed words of a line.
ghost use Rattle.std.specs.{Prelude.◌≡◌, Prelude.OnOk, Prelude.IfErr, Prelude.Ok, List.list_all};
ghost use Rattle.script_lang.specs.{Steps.Gives, Steps.Fails, Lines.handle_at, Lines.is_name, Lines.is_name_byte, Lines.key_at, Lines.no_words, Lines.with_word, Lines.read_fixed, Sessions.places_of};

use crate::commands::Kind;
use crate::faults::{LineError, Reason};
use crate::numbers::number_of;
use crate::pieces::Words;
use crate::script::{ByteList, KeyWord};
use crate::sessions::SessionNames;
use key_attributes::KeyId;
use service_calls::Op;
use std::alloc::Global;

/// The fixed words of a line. What it doesn't name is the key 0, and the first handle.
#[derive(Drop)]
pub(crate) struct Fixed {
    pub key: KeyWord,
    pub name: Option<ByteList>,
    pub handle: Op,
}

impl Fixed {
    pub fn new() -> Fixed
        ensures { result ≡ no_words }
    {
        Fixed {
            key: KeyWord::Given(KeyId(0)),
            name: None,
            handle: Op::first(),
        }
    }
}

/// Whether a word is a name.
#[tactic(auto, unfolding(crate::specs::Lines::is_name))]
fn is_name(word: &[u8]) -> bool
    ensures { result ≡ is_name word.now }
{
    match word {
        [] => false,
        [first, rest @ ..] => {
            first.is_ascii_lowercase() && rest.len() <= 15 && are_name_bytes(rest)
        }
    }
}

fn are_name_bytes(word: &[u8]) -> bool
    ensures { result ≡ list_all is_name_byte word.now }
{
    word.iter().all(|c| c.is_ascii_lowercase() || c.is_ascii_digit() || *c == b'_')
}

#[tactic(auto, unfolding(crate::specs::Lines::key_at))]
fn key_of(session: &SessionNames, word: &[u8]) -> Result<KeyWord, LineError>
    ensures { Gives (λ k. k) result (key_at (places_of session.now) word.now) }
{
    match word {
        [b'#', digits @ ..] => match number_of(16, 8, 0xffffffff, digits) {
            Some(number) => Ok(KeyWord::Given(KeyId(number as u32))),
            None => Err(LineError::Bad(Reason::BadKey)),
        },
        [b'$', name @ ..] => {
            if !is_name(name) {
                return Err(LineError::Bad(Reason::BadKey));
            }
            match session.place(name) {
                Some(place) => Ok(KeyWord::Line(place)),
                None => Err(LineError::Bad(Reason::UnknownName)),
            }
        }
        _ => Err(LineError::Bad(Reason::BadKey)),
    }
}

/// A handle, 1 to 4.
fn handle_of(word: &[u8]) -> Result<Op, LineError>
    ensures { Gives (λ h. h) result (handle_at word.now) }
{
    match word {
        [digit @ b'1'..=b'4'] => Ok(Op::new(*digit - b'0').unwrap()),
        _ => Err(LineError::Bad(Reason::BadHandle)),
    }
}

/// Takes one more fixed word.
#[tactic(auto, unfolding(crate::specs::Lines::with_word))]
fn take_word(
    alloc: Global,
    session: &SessionNames,
    kind: Kind,
    fixed: &mut Fixed,
    word: &[u8],
) -> Result<(), LineError>
    ensures ok { OnOk result (with_word (places_of session.now) kind fixed.old word.now ≡ Ok fixed.new) }
    ensures err { IfErr result (λ e. Fails e (with_word (places_of session.now) kind fixed.old word.now)) }
{
    match kind {
        Kind::Name => {
            if !is_name(word) {
                return Err(LineError::Bad(Reason::BadName));
            }
            fixed.name = Some(ByteList::of(word.to_vec(alloc)?));
        }
        Kind::Key => {
            fixed.key = key_of(session, word)?;
        }
        Kind::Handle => {
            fixed.handle = handle_of(word)?;
        }
    }
    Ok(())
}

/// Takes the fixed words of these kinds.
#[tactic(auto, unfolding(crate::specs::Lines::read_fixed))]
pub(crate) fn take_words(
    alloc: Global,
    session: &SessionNames,
    kinds: &[Kind],
    fixed: &mut Fixed,
    words: &mut Words,
) -> Result<(), LineError>
    ensures ok { OnOk result (read_fixed (places_of session.now) kinds.now fixed.old words.old ≡ Ok (fixed.new, words.new)) }
    ensures err { IfErr result (λ e. Fails e (read_fixed (places_of session.now) kinds.now fixed.old words.old)) }
{
    match kinds {
        [] => Ok(()),
        [kind, rest @ ..] => {
            let Some(word) = words.next() else {
                return Err(LineError::Bad(Reason::MissingWord));
            };
            take_word(alloc, session, *kind, fixed, word)?;
            take_words(alloc, session, rest, fixed, words)
        }
    }
}
