//! The calls of a script.
ghost use Rattle.std.specs.{Prelude.◌≡◌, Prelude.◌≤◌, Prelude.◌+◌, Prelude.List, Prelude.ℕ, Prelude.IfSome, Prelude.IfOk, Prelude.IfErr, Prelude.IsErrOf, Prelude.MatchResult, Prelude.Ok, Prelude.Err, Prelude.All, Prelude.length, Io.KnownBytes.IsAtEnd, Io.KnownBytes.Consumes};
ghost use Rattle.psa_status.specs.Causes.{Rose};
ghost use Rattle.outside_io.specs.Causes.{text_limit, TellsAsBefore};
ghost use Rattle.script_lang.specs.{declared.faults.ScriptFault.ScriptFault, Prelude.script_of, Prelude.AreOwners, Prelude.IsOfSession};
ghost use Rattle.script_lang.specs.declared.faults.ScriptFault.TheVariants as faults;
ghost use Rattle.psa_command.specs.Ends.{IsOfReading, IsReadToEnd};

use crate::exit::Exit;
use outside_io::{ReadError, Source, read_text};
use script_lang::{Script, ScriptFault, read_script};
use std::alloc::Global;

/// The calls of the script that a source has. Else how a run ends: with the text's first fault, a read fault, or want
/// of memory.
pub(crate) fn read_calls<S: Source>(alloc: Global, source: &mut S) -> Result<Script, Exit>
    ensures calls { IfOk result (λ script. IfSome (S.left source.old) (λ text. script_of text ≡ Ok script)) }
    ensures few { IfOk result (λ script. length script.lines ≤ 20000) }
    ensures sessions { IfOk result (λ script. All IsOfSession script.lines) }
    ensures owners { IfOk result (λ script. AreOwners script.owners) }
    ensures early { IfErr result IsOfReading }
    ensures end { MatchResult result (λ script. IsAtEnd (S.left source.new)) (λ exit. IsReadToEnd exit → IsAtEnd (S.left source.new)) }
    ensures long { IsErrOf result (Exit.Script faults.TooLong) → (bytes : List ℕ) × (length bytes ≡ text_limit + 1) × Consumes (S.left source.old) (S.left source.new) bytes }
    ensures script { (f : ScriptFault) → IsErrOf result (Exit.Script f) → IfSome (S.left source.old) (λ text. script_of text ≡ Err f) }
    ensures script_memory { IsErrOf result (Exit.Script faults.Memory) → ⊥ }
    ensures read { IsErrOf result Exit.ReadFault → Rose (S.faults source.old) (S.faults source.new) }
    ensures later { S.faults source.old ≤ S.faults source.new }
    ensures tells { TellsAsBefore (S.left source.old) (S.left source.new) }
{
    let text = match read_text(alloc, source) {
        Ok(text) => text,
        Err(ReadError::TooLong) => return Err(Exit::Script(ScriptFault::TooLong)),
        Err(ReadError::Fault) => return Err(Exit::ReadFault),
        Err(ReadError::Memory) => return Err(Exit::Memory),
    };
    let script = match read_script(alloc, &text) {
        Ok(script) => script,
        Err(fault) => match fault {
            ScriptFault::Memory => return Err(Exit::Memory),
            _ => return Err(Exit::Script(fault)),
        },
    };
    Ok(script)
}
