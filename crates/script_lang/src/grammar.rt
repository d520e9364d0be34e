// What is read of a text is what the grammar says of it.
ghost use Rattle.std.specs.Prelude.{◌≡◌, ℕ, List, Ok, Err};
ghost use Rattle.script_lang.specs.{declared.faults.ScriptFault.ScriptFault, Lines.Said, Lines.script_of, Grammar.IsScript, Outside.IsFault};

/// A text is read as calls and owners exactly where the grammar says that it says them. It is refused exactly where it is
/// outside the grammar, and then for the first reason.
pub fn script_grammar()
    ensures said { (text : List ℕ) (said : Said) → script_of text ≡ Ok said → IsScript text said }
    ensures said_again { (text : List ℕ) (said : Said) → IsScript text said → script_of text ≡ Ok said }
    ensures fault { (text : List ℕ) (fault : ScriptFault) → script_of text ≡ Err fault → IsFault text fault }
    ensures fault_again { (text : List ℕ) (fault : ScriptFault) → IsFault text fault → script_of text ≡ Err fault }
{}
