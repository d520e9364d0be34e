// A script, read line by line.
ghost use Rattle.std.specs.Prelude.{◌≡◌, ◌≤◌, ◌<◌, ◌+◌, ◌^◌, [], length, nat_lt, All, OnOk, IfOk, IfErr, IfSome, IsErr, Ok, ℕ, List};
ghost use Rattle.script_lang.specs.{declared.faults.LineError.TheVariants.Memory, Steps.Fails, Steps.Gives, Pieces.line_words, Pieces.text_lines, Lines.call_line, Lines.has_begun, Lines.owner_line, Lines.owner_of, Lines.session_of, Lines.with_call, Lines.with_owner, Lines.parts_at, Lines.words_at, Lines.lines_at, Lines.nothing_read, Lines.fault_at, Lines.script_of, Lines.ScriptGives, Lines.AreOwners, Lines.IsOfSession, Shapes.shape};
ghost use Rattle.script_lang.specs.Sessions.{places_of, read_of, AreCounted, IsNew};

use crate::commands::{Row, row_named};
use crate::faults::{LineError, Reason, ScriptFault};
use crate::fields::{fields_of, has_required, is_text};
use crate::fixed::{Fixed, take_words};
use crate::numbers::number_of;
use crate::pieces::{Lines, Words};
use crate::script::{ByteList, Script, ScriptCall, ScriptLine};
use crate::sessions::SessionNames;
use owner_space::Owner;
use std::alloc::Global;

/// The greatest number of bytes in a script: 4 MiB.
const TEXT_LIMIT: usize = 4194304;

/// The greatest number of lines in a script.
const LINE_LIMIT: u32 = 20000;

/// A session, 1 to 16.
#[tactic(auto, unfolding(crate::specs::Lines::session_of))]
fn session_of(word: &[u8]) -> Option<u8>
    ensures value { result ≡ session_of word.now }
    ensures range { IfSome result (λ s. (1 ≤ s) × (s ≤ 16)) }
{
    if let [b'0', ..] = word {
        return None;
    }
    let number = number_of(10, 2, 16, word)?;
    if 1 <= number {
        Some(number as u8)
    } else {
        None
    }
}

/// An owner, 0 to 15.
#[tactic(auto, unfolding(crate::specs::Lines::owner_of))]
fn owner_of(word: &[u8]) -> Option<Owner>
    ensures { result ≡ owner_of word.now }
{
    if let [b'0', _, ..] = word {
        return None;
    }
    Owner::new(number_of(10, 2, 15, word)? as u8)
}

/// What was read so far: the calls, the sessions, each at its number, and the owners, once a line states one.
#[derive(Drop)]
struct Reading {
    lines: Vec<ScriptLine>,
    sessions: Vec<SessionNames>,
    owners: Option<[Owner; 16]>,
}

/// The words after a command: the name that the line gives, and its call.
#[tactic(auto, unfolding(crate::specs::Lines::parts_at))]
fn read_parts(
    alloc: Global,
    session: &SessionNames,
    row: Row,
    words: &mut Words,
) -> Result<(Option<ByteList>, ScriptCall), LineError>
    ensures { Gives (λ p. p) result (parts_at (places_of session.now) (shape row) words.old) }
{
    let mut fixed = Fixed::new();
    take_words(alloc, session, row.fixed, &mut fixed, words)?;
    let fields = fields_of(alloc, row, words)?;
    if !has_required(row, fields.items()) {
        return Err(LineError::Bad(Reason::MissingField));
    }
    let call = ScriptCall {
        command: row.command,
        key: fixed.key,
        handle: fixed.handle,
        fields,
    };
    Ok((fixed.name, call))
}

fn new_sessions(alloc: Global) -> Result<Vec<SessionNames>, LineError>
    ensures seventeen { IfOk result (λ sessions. length sessions.items ≡ 17) }
    ensures new { IfOk result (λ sessions. All IsNew sessions.items) }
    ensures err { IfErr result (λ e. e ≡ Memory) }
{
    let mut sessions = Vec::new(alloc);
    while sessions.len() < 17 {
        sessions.push(SessionNames::new(alloc))?;
    }
    Ok(sessions)
}

impl Reading {
    fn new(alloc: Global) -> Result<Reading, LineError>
        ensures ok { IfOk result (λ r. read_of r.lines.items r.sessions.items r.owners ≡ nothing_read) }
        ensures counted { IfOk result (λ r. AreCounted r.lines.items r.sessions.items) }
        ensures err { IfErr result (λ e. e ≡ Memory) }
    {
        Ok(Reading {
            lines: Vec::with_capacity(alloc, LINE_LIMIT as usize)?,
            sessions: new_sessions(alloc)?,
            owners: None,
        })
    }

    /// Adds a call of a session, and the name that its line gives.
    fn add(
        &mut self,
        session: u8,
        name: Option<ByteList>,
        call: ScriptCall,
    ) -> Result<(), LineError>
        requires few { length self.old.lines.items < 2 ^ 31 }
        requires range { (1 ≤ session) × (session ≤ 16) }
        requires counted { AreCounted self.old.lines.items self.old.sessions.items }
        ensures ok { OnOk result (read_of self.new.lines.items self.new.sessions.items self.new.owners ≡ with_call (read_of self.old.lines.items self.old.sessions.items self.old.owners) session name call) }
        ensures err { IfErr result (λ e. e ≡ Memory) }
        ensures counted { OnOk result (AreCounted self.new.lines.items self.new.sessions.items) }
        ensures one { OnOk result (length self.new.lines.items ≡ length self.old.lines.items + 1) }
        ensures sessions { OnOk result (All IsOfSession self.old.lines.items → All IsOfSession self.new.lines.items) }
    {
        let state = &mut self.sessions[session as usize];
        state.give(name)?;
        state.calls += 1;
        self.lines.push(ScriptLine { session, call })?;
        Ok(())
    }

    /// What is known of a session.
    fn session(&self, session: u8) -> &SessionNames
        requires range { (1 ≤ session) × (session ≤ 16) }
        requires counted { AreCounted self.now.lines.items self.now.sessions.items }
        ensures { places_of result.now ≡ (read_of self.now.lines.items self.now.sessions.items self.now.owners).places session }
    {
        &self.sessions[session as usize]
    }

    /// Gives a session the owner that its line states; sessions that state none have owner 0.
    fn give_owner(&mut self, session: u8, owner: Owner)
        requires range { (1 ≤ session) × (session ≤ 16) }
        requires counted { AreCounted self.old.lines.items self.old.sessions.items }
        ensures owned { read_of self.new.lines.items self.new.sessions.items self.new.owners ≡ with_owner (read_of self.old.lines.items self.old.sessions.items self.old.owners) session owner }
        ensures counted { AreCounted self.new.lines.items self.new.sessions.items }
        ensures lines { self.new.lines ≡ self.old.lines }
    {
        let mut owners = self.owners.unwrap_or([Owner::first(); 16]);
        owners[usize::from(session) - 1] = owner;
        self.owners = Some(owners);
        self.sessions[session as usize].stated = true;
    }

    /// Whether a session has stated its owner, or has a call.
    fn has_begun(&self, session: u8) -> bool
        requires range { (1 ≤ session) × (session ≤ 16) }
        requires counted { AreCounted self.now.lines.items self.now.sessions.items }
        ensures { result ≡ has_begun (read_of self.now.lines.items self.now.sessions.items self.now.owners) session }
    {
        let state = &self.sessions[session as usize];
        state.stated || state.calls > 0
    }

    /// The words after `owner`.
    #[tactic(auto, unfolding(crate::specs::Lines::owner_line))]
    fn read_owner(&mut self, session: u8, words: &mut Words) -> Result<(), LineError>
        requires range { (1 ≤ session) × (session ≤ 16) }
        requires counted { AreCounted self.old.lines.items self.old.sessions.items }
        ensures ok { OnOk result (owner_line (read_of self.old.lines.items self.old.sessions.items self.old.owners) session words.old ≡ Ok (read_of self.new.lines.items self.new.sessions.items self.new.owners)) }
        ensures err { IfErr result (λ e. Fails e (owner_line (read_of self.old.lines.items self.old.sessions.items self.old.owners) session words.old)) }
        ensures counted { OnOk result (AreCounted self.new.lines.items self.new.sessions.items) }
        ensures lines { self.new.lines ≡ self.old.lines }
    {
        if self.has_begun(session) {
            return Err(LineError::Bad(Reason::LateOwner));
        }
        let Some(word) = words.next() else {
            return Err(LineError::Bad(Reason::MissingWord));
        };
        let Some(owner) = owner_of(word) else {
            return Err(LineError::Bad(Reason::BadOwner));
        };
        if words.next().is_some() {
            return Err(LineError::Bad(Reason::UnknownField));
        }
        self.give_owner(session, owner);
        Ok(())
    }

    /// A command, and the words after it.
    #[tactic(auto, unfolding(crate::specs::Lines::call_line))]
    fn read_call(
        &mut self,
        alloc: Global,
        session: u8,
        name: &[u8],
        words: &mut Words,
    ) -> Result<(), LineError>
        requires few { length self.old.lines.items < 2 ^ 31 }
        requires range { (1 ≤ session) × (session ≤ 16) }
        requires counted { AreCounted self.old.lines.items self.old.sessions.items }
        ensures ok { OnOk result (call_line (read_of self.old.lines.items self.old.sessions.items self.old.owners) session name.now words.old ≡ Ok (read_of self.new.lines.items self.new.sessions.items self.new.owners)) }
        ensures err { IfErr result (λ e. Fails e (call_line (read_of self.old.lines.items self.old.sessions.items self.old.owners) session name.now words.old)) }
        ensures counted { OnOk result (AreCounted self.new.lines.items self.new.sessions.items) }
        ensures one { OnOk result (length self.new.lines.items ≡ length self.old.lines.items + 1) }
        ensures sessions { OnOk result (All IsOfSession self.old.lines.items → All IsOfSession self.new.lines.items) }
    {
        let Some(row) = row_named(name) else {
            return Err(LineError::Bad(Reason::UnknownCommand));
        };
        let (name, call) = read_parts(alloc, self.session(session), row, words)?;
        self.add(session, name, call)
    }

    #[tactic(auto, unfolding(crate::specs::Lines::words_at))]
    fn read_line(&mut self, alloc: Global, text: &[u8]) -> Result<(), LineError>
        requires few { length self.old.lines.items < 2 ^ 31 }
        requires counted { AreCounted self.old.lines.items self.old.sessions.items }
        ensures ok { OnOk result (words_at (read_of self.old.lines.items self.old.sessions.items self.old.owners) (line_words text.now) ≡ Ok (read_of self.new.lines.items self.new.sessions.items self.new.owners)) }
        ensures err { IfErr result (λ e. Fails e (words_at (read_of self.old.lines.items self.old.sessions.items self.old.owners) (line_words text.now))) }
        ensures counted { OnOk result (AreCounted self.new.lines.items self.new.sessions.items) }
        ensures one { OnOk result (length self.new.lines.items ≤ length self.old.lines.items + 1) }
        ensures sessions { OnOk result (All IsOfSession self.old.lines.items → All IsOfSession self.new.lines.items) }
    {
        if let [b'#', ..] = text {
            return Ok(());
        }
        let mut words = Words::new(text);
        let Some(word) = words.next() else {
            return Ok(());
        };
        let Some(session) = session_of(word) else {
            return Err(LineError::Bad(Reason::BadSession));
        };
        let Some(name) = words.next() else {
            return Err(LineError::Bad(Reason::UnknownCommand));
        };
        if is_text(name, b"owner") {
            self.read_owner(session, &mut words)
        } else {
            self.read_call(alloc, session, name, &mut words)
        }
    }
}

/// Why a script isn't read, where one of its lines isn't.
fn fault_at(line: u32, error: LineError) -> ScriptFault
    ensures { result ≡ fault_at line error }
{
    match error {
        LineError::Memory => ScriptFault::Memory,
        LineError::Bad(reason) => ScriptFault::BadLine { line, reason },
    }
}

// What the lines say, where they aren't too many.
fn read_lines(alloc: Global, text: &[u8]) -> Result<Script, ScriptFault>
    ensures many { 20000 < length (text_lines text.now) → IsErr result }
    ensures value { length (text_lines text.now) ≤ 20000 → ScriptGives (λ script. script) result (lines_at 1 nothing_read (text_lines text.now)) }
    ensures few { IfOk result (λ script. length script.lines ≤ 20000) }
    ensures sessions { IfOk result (λ script. All IsOfSession script.lines) }
{
    let mut reading = match Reading::new(alloc) {
        Ok(reading) => reading,
        Err(_) => return Err(ScriptFault::Memory),
    };
    let mut lines = Lines::new(text);
    let mut number: u32 = 1;
    while let Some(line) = lines.next() {
        if number > LINE_LIMIT {
            return Err(ScriptFault::TooManyLines);
        }
        match reading.read_line(alloc, line) {
            Ok(()) => {}
            Err(error) => return Err(fault_at(number, error)),
        }
        number += 1;
    }
    let Reading {
        lines,
        sessions: _sessions,
        owners,
    } = reading;
    Ok(Script::of(lines, owners))
}

/// Whether a text has more than 20,000 lines.
fn has_many_lines(text: &[u8]) -> bool
    ensures { result ≡ nat_lt 20000 (length (text_lines text.now)) }
{
    let mut lines = Lines::new(text);
    let mut left = LINE_LIMIT;
    while let Some(_line) = lines.next() {
        if left == 0 {
            return true;
        }
        left -= 1;
    }
    false
}

/// The calls and owners of a text of at most 4 MiB and 20,000 lines, or why it isn't a script: `TooLong`,
/// `TooManyLines`, or the first line that is outside the grammar, found in this order. `Memory` may be
/// answered wherever memory is taken, and says nothing of the text.
#[tactic(auto, unfolding(crate::specs::Lines::script_of))]
pub fn read_script(alloc: Global, text: &[u8]) -> Result<Script, ScriptFault>
    ensures value { ScriptGives (λ script. script) result (script_of text.now) }
    ensures few { IfOk result (λ script. length script.lines ≤ 20000) }
    ensures sessions { IfOk result (λ script. All IsOfSession script.lines) }
    ensures owners { IfOk result (λ script. AreOwners script.owners) }
{
    if text.len() > TEXT_LIMIT {
        return Err(ScriptFault::TooLong);
    }
    match read_lines(alloc, text) {
        Ok(script) => Ok(script),
        Err(_) if has_many_lines(text) => Err(ScriptFault::TooManyLines),
        Err(fault) => Err(fault),
    }
}
