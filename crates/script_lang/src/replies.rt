// The replies of a session, as text.
ghost use Rattle.std.specs.{Prelude.◌≡◌, Prelude.◌<◌, Prelude.◌-◌, Prelude.◌+◌, Prelude.◌^◌, Prelude.◌++◌, Prelude.◌∷◌, Prelude.[], Prelude.List, Prelude.OnErr, Prelude.OnOk, Prelude.codes, Prelude.cond, Prelude.length, Fmt.decimal};
ghost use Rattle.hex.specs.Hex.{encode_lower};
ghost use Rattle.psa_status.specs.Status.{status_name};
ghost use Rattle.script_lang.specs.Replies.{AreKept, ReplyLine, bytes_text, next_line, succeeded, text_in};

use itoa::Buffer;
use psa_status::{Memory, Status};
use secret_bytes::let_zeros_go;
use std::alloc::{AllocError, Global};

/// So many bytes at a time are written in hex.
const HEX_PIECE: usize = 64;

/// The room in bytes that a session's first reply takes, so that its text seldom moves.
const FIRST_ROOM: usize = 98304;

/// How reply lines are written: with their ranks, or without.
#[derive(Clone, Copy, Debug, PartialEq, Eq, Drop)]
pub enum ReplyForm {
    Ranked,
    Unranked,
}

/// The replies of a session: their lines, numbered from 1, as text; how many they are, and how many of them succeeded.
/// Where they are let go, the text is zeros first.
pub struct Replies {
    pub session: u8,
    pub form: ReplyForm,
    pub count: u32,
    pub successes: u32,
    pub text: Vec<u8>,
}

fn push_hex(out: &mut Vec<u8>, bytes: &[u8]) -> Result<(), AllocError>
    ensures { OnOk result (out.new.items ≡ out.old.items ++ encode_lower bytes.now) }
{
    let mut rest = bytes;
    while !rest.is_empty() {
        let (piece, more) = rest.split_at(rest.len().min(HEX_PIECE));
        let mut room = [0; 2 * HEX_PIECE];
        let text = &mut room[..2 * piece.len()];
        hex::encode_to_slice(piece, text).unwrap();
        out.extend_from_slice(text)?;
        rest = more;
    }
    Ok(())
}

fn push_bytes(out: &mut Vec<u8>, bytes: &[u8]) -> Result<(), AllocError>
    ensures { OnOk result (out.new.items ≡ out.old.items ++ bytes_text bytes.now) }
{
    if bytes.is_empty() {
        return Ok(());
    }
    out.push(b' ')?;
    push_hex(out, bytes)
}

fn push_number(out: &mut Vec<u8>, number: u64) -> Result<(), AllocError>
    ensures { OnOk result (out.new.items ≡ out.old.items ++ decimal number) }
{
    out.extend_from_slice(Buffer::new().format(number).as_bytes())
}

// Takes room for the first reply and many more.
fn make_room(text: &mut Vec<u8>) -> Result<(), AllocError>
    ensures { text.new.items ≡ text.old.items }
{
    if text.is_empty() {
        text.reserve(FIRST_ROOM)
    } else {
        Ok(())
    }
}

// Appends where a reply stands in its session.
fn push_place(out: &mut Vec<u8>, session: u8, number: u32) -> Result<(), AllocError>
    ensures { OnOk result (out.new.items ≡ out.old.items ++ (decimal session ++ codes "." ++ decimal number)) }
{
    push_number(out, session as u64)?;
    out.push(b'.')?;
    push_number(out, number as u64)
}

// Appends a rank.
fn push_rank(out: &mut Vec<u8>, rank: u64) -> Result<(), AllocError>
    ensures { OnOk result (out.new.items ≡ out.old.items ++ (codes " @" ++ decimal rank)) }
{
    out.push(b' ')?;
    out.push(b'@')?;
    push_number(out, rank)
}

// Appends what a call answered.
fn push_answer(out: &mut Vec<u8>, status: Status, bytes: &[u8]) -> Result<(), AllocError>
    ensures { OnOk result (out.new.items ≡ out.old.items ++ (codes " " ++ status_name status ++ bytes_text bytes.now ++ codes "\n")) }
{
    out.push(b' ')?;
    out.extend_from_slice(status.name().as_bytes())?;
    push_bytes(out, bytes)?;
    out.push(b'\n')?;
    Ok(())
}

// The successes with one more reply.
fn counted(successes: u32, status: Status) -> u32
    requires { successes < 2 ^ 32 - 1 }
    ensures { result ≡ successes + cond (succeeded status) 1 0 }
{
    match status {
        Status::Success => successes + 1,
        _ => successes,
    }
}

impl Replies {
    /// No reply.
    pub fn new(alloc: Global, session: u8, form: ReplyForm) -> Replies
        ensures session { result.session ≡ session }
        ensures form { result.form ≡ form }
        ensures none { AreKept result [] }
    {
        Replies {
            session,
            form,
            count: 0,
            successes: 0,
            text: Vec::new(alloc),
        }
    }

    // Appends the text of the next line.
    fn push_line(&mut self, rank: u64, status: Status, bytes: &[u8]) -> Result<(), AllocError>
        requires few { self.old.count < 2 ^ 32 - 1 }
        ensures text { OnOk result (self.new.text.items ≡ self.old.text.items ++ text_in self.old.form (next_line self.old rank status bytes.now)) }
        ensures same { (self.new.session ≡ self.old.session) × (self.new.form ≡ self.old.form) × (self.new.count ≡ self.old.count) × (self.new.successes ≡ self.old.successes) }
    {
        make_room(&mut self.text)?;
        push_place(&mut self.text, self.session, self.count + 1)?;
        match self.form {
            ReplyForm::Ranked => {
                push_rank(&mut self.text, rank)?;
                push_answer(&mut self.text, status, bytes)
            }
            ReplyForm::Unranked => push_answer(&mut self.text, status, bytes),
        }
    }

    /// Appends the line of the next reply. Without memory only a part of it is appended, and it isn't counted.
    pub fn push(&mut self, rank: u64, status: Status, bytes: &[u8]) -> Result<(), Memory>
        requires few { (lines : List ReplyLine) × AreKept self.old lines × (length lines < 2 ^ 32 - 1) }
        ensures kept { OnOk result ((lines : List ReplyLine) → AreKept self.old lines → AreKept self.new (lines ++ next_line self.old rank status bytes.now ∷ [])) }
        ensures uncounted { OnErr result ((self.new.count ≡ self.old.count) × (self.new.successes ≡ self.old.successes)) }
        ensures session { self.new.session ≡ self.old.session }
        ensures form { self.new.form ≡ self.old.form }
    {
        let Ok(()) = self.push_line(rank, status, bytes) else {
            return Err(Memory);
        };
        self.count += 1;
        self.successes = counted(self.successes, status);
        Ok(())
    }
}

impl Drop for Replies {
    fn drop(self) {
        let Replies {
            session: _,
            form: _,
            count: _,
            successes: _,
            mut text,
        } = self;
        let count = text.len();
        text.fill(0);
        let_zeros_go(text, count);
    }
}
