//! The top call.
ghost use Rattle.std.specs.{Prelude.◌≡◌, Prelude.◌≤◌, Prelude.◌+◌, Prelude.◌↔◌, Prelude.◌⊎◌, Prelude.List, Prelude.[], Prelude.ℕ, Prelude.IfSome, Prelude.IsSomeAnd, Prelude.None, Prelude.Some, Prelude.Err, Prelude.Option, Prelude.map, Prelude.length, Io.KnownBytes.IsAtEnd, Io.KnownBytes.Consumes};
ghost use Rattle.psa_status.specs.Causes.{Rose};
ghost use Rattle.policy_rules.specs.declared.narrowing.Label.{Label};
ghost use Rattle.admission.specs.Apply.{picked};
ghost use Rattle.disk_face.specs.Disk.{NoNewImage};
ghost use Rattle.key_cells.specs.Prelude.{IsFirstDamaged, IsNoStore};
ghost use Rattle.driver_dispatch.specs.Calls.{Lacks};
ghost use Rattle.outside_io.specs.Causes.{text_limit, TellsAsBefore};
ghost use Rattle.script_lang.specs.{declared.faults.ScriptFault.ScriptFault, Prelude.script_of};
ghost use Rattle.script_lang.specs.declared.faults.ScriptFault.TheVariants as faults;
ghost use Rattle.command_words.specs.Words.{command_of};
ghost use Rattle.command_words.specs.declared.command.Command as command;
ghost use Rattle.command_words.specs.declared.command.Command.TheVariants as commands;
ghost use Rattle.command_words.specs.declared.command.RunOptions as options;
ghost use Rattle.psa_command.specs.{Commands.EndsBy, Commands.HasStore, Commands.IsDonePlainly, Commands.IsOverQuota, Commands.IsReadable, Commands.KeepsQuotas, Commands.StatesOwners, Ends.IsBeforeOpening, Ends.IsOfImage, Ends.IsQuiet, Ends.IsReadToEnd};

use crate::exit::{Ended, Exit};
use crate::reading::read_calls;
use crate::writing::{write_replies, write_summary_of};
use admission::Admission;
use command_words::{Command, RuleList, RunOptions, read_words};
use disk_face::Disk;
use driver_dispatch::Devices;
use line_generator::generated_lines;
use outside_io::{Sink, Source};
use owner_space::Names;
use psa_status::Memory;
use script_lang::ReplyForm;
use session_host::{Run, answer_lines};
use std::alloc::Global;
use std::sync::Wait;
use std::thread::Threads;

/// Runs a script: reads it, makes its calls, and writes a reply line a call.
fn run_script<
    S: Source,
    K: Sink,
    D: Disk + Send,
    A: Devices,
    C: Admission,
    R: Threads + Wait + Sync,
>(
    rt: &R,
    alloc: Global,
    options: &RunOptions,
    source: &mut S,
    sink: &mut K,
    disk: D,
    devices: A,
    rules: C,
) -> Ended<D, A>
    requires first { 1 ≤ options.now.workers }
    requires last { options.now.workers ≤ 16 }
    requires empty { (handle : ℕ) → Lacks (A.keys devices) handle }
    ensures ends { (given : List Label) → C.labels rules ≡ picked options.now.labels given →
        EndsBy D.Disk A.Devices C.Admission given (S.left source.old) disk devices (commands.Run options.now) result.disk result.devices result.exit (K.taken sink.old) (K.taken sink.new) }
    ensures end { IsReadToEnd result.exit → IsAtEnd (S.left source.new) }
    ensures quiet { IsQuiet result.exit → sink.new ≡ sink.old }
    ensures write { result.exit ≡ Exit.WriteFault → Rose (K.faults sink.old) (K.faults sink.new) }
    ensures sink_faults { K.faults sink.old ≤ K.faults sink.new }
    ensures sink_tells { TellsAsBefore (K.taken sink.old) (K.taken sink.new) }
    ensures long { result.exit ≡ Exit.Script faults.TooLong → (bytes : List ℕ) × (length bytes ≡ text_limit + 1) × Consumes (S.left source.old) (S.left source.new) bytes }
    ensures script { (f : ScriptFault) → result.exit ≡ Exit.Script f → IfSome (S.left source.old) (λ text. script_of text ≡ Err f) }
    ensures script_memory { result.exit ≡ Exit.Script faults.Memory → ⊥ }
    ensures read { result.exit ≡ Exit.ReadFault → Rose (S.faults source.old) (S.faults source.new) }
    ensures source_faults { S.faults source.old ≤ S.faults source.new }
    ensures source_tells { TellsAsBefore (S.left source.old) (S.left source.new) }
{
    let script = match read_calls(alloc, source) {
        Ok(script) => script,
        Err(exit) => return Ended::of(exit, disk, devices),
    };
    let run = answer_lines(
        rt,
        alloc,
        script.lines(),
        &script.names(),
        options.workers,
        ReplyForm::Ranked,
        &options.seed,
        disk,
        devices,
        rules,
    );
    let Run {
        replies,
        disk,
        devices,
    } = run;
    match replies {
        Ok(replies) => Ended::of(write_replies(&replies, sink), disk, devices),
        Err(why) => Ended::of(Exit::unanswered(why), disk, devices),
    }
}

/// Runs so many of the generator's lines, by one worker, and writes a summary of their replies.
fn run_generator<K: Sink, D: Disk + Send, A: Devices, C: Admission, R: Threads + Wait + Sync>(
    rt: &R,
    alloc: Global,
    count: u32,
    sink: &mut K,
    disk: D,
    devices: A,
    rules: C,
) -> Ended<D, A>
    requires few { count ≤ 20000 }
    requires empty { (handle : ℕ) → Lacks (A.keys devices) handle }
    ensures ends { (given : List Label) (left : Option (List ℕ)) → C.labels rules ≡ picked [] given →
        EndsBy D.Disk A.Devices C.Admission given left disk devices (commands.Generate count) result.disk result.devices result.exit (K.taken sink.old) (K.taken sink.new) }
    ensures late { IsBeforeOpening result.exit → ⊥ }
    ensures quiet { IsQuiet result.exit → sink.new ≡ sink.old }
    ensures write { result.exit ≡ Exit.WriteFault → Rose (K.faults sink.old) (K.faults sink.new) }
    ensures sink_faults { K.faults sink.old ≤ K.faults sink.new }
    ensures sink_tells { TellsAsBefore (K.taken sink.old) (K.taken sink.new) }
{
    let lines = match generated_lines(alloc, count) {
        Ok(lines) => lines,
        Err(Memory) => return Ended::of(Exit::Memory, disk, devices),
    };
    let Run {
        replies,
        disk,
        devices,
    } = answer_lines(
        rt,
        alloc,
        &lines,
        &Names::Unowned,
        1,
        ReplyForm::Unranked,
        &[0; 32],
        disk,
        devices,
        rules,
    );
    match replies {
        Ok(replies) => Ended::of(write_summary_of(alloc, &replies, sink), disk, devices),
        Err(why) => Ended::of(Exit::unanswered(why), disk, devices),
    }
}

/// Runs the command that words are, on the store of a disk, with a secure element among the devices and rules of which the
/// words pick some. A script comes from the source; replies go to the sink. Disk and devices come back.
pub fn run_command<
    S: Source,
    K: Sink,
    D: Disk + Send,
    A: Devices,
    L: RuleList + Drop,
    R: Threads + Wait + Sync,
>(
    rt: &R,
    alloc: Global,
    words: &[&str],
    source: &mut S,
    sink: &mut K,
    disk: D,
    devices: A,
    rules: L,
) -> Ended<D, A>
    requires empty { (handle : ℕ) → Lacks (A.keys devices) handle }
    // The bytes written are what is written of the replies of one order of the command's calls, replayed on the one-thread
    // service from the keys of the disk; a crash since the opening leaves the persistent keys of a prefix of that order.
    ensures ends { (c : command.Command) → command_of (L.labels rules) (map (λ w. w.now) words.now) ≡ Some c →
        EndsBy D.Disk A.Devices L.Picked.Admission (L.labels rules) (S.left source.old) disk devices c result.disk result.devices result.exit (K.taken sink.old) (K.taken sink.new) }
    ensures usage { (result.exit ≡ Exit.Usage) ↔ (command_of (L.labels rules) (map (λ w. w.now) words.now) ≡ None) }
    ensures returned { IsBeforeOpening result.exit → (result.disk ≡ disk) × (result.devices ≡ devices) }
    ensures late { (count : ℕ) → command_of (L.labels rules) (map (λ w. w.now) words.now) ≡ Some (commands.Generate count) → IsBeforeOpening result.exit → ⊥ }
    ensures untouched { result.exit ≡ Exit.Usage → source.new ≡ source.old }
    ensures generator { (count : ℕ) → command_of (L.labels rules) (map (λ w. w.now) words.now) ≡ Some (commands.Generate count) → source.new ≡ source.old }
    ensures end { (options : options.RunOptions) → command_of (L.labels rules) (map (λ w. w.now) words.now) ≡ Some (commands.Run options) → IsReadToEnd result.exit → IsAtEnd (S.left source.new) }
    ensures quiet { IsQuiet result.exit → sink.new ≡ sink.old }
    ensures write { result.exit ≡ Exit.WriteFault → Rose (K.faults sink.old) (K.faults sink.new) }
    ensures sink_faults { K.faults sink.old ≤ K.faults sink.new }
    ensures sink_tells { TellsAsBefore (K.taken sink.old) (K.taken sink.new) }
    ensures long { result.exit ≡ Exit.Script faults.TooLong → (bytes : List ℕ) × (length bytes ≡ text_limit + 1) × Consumes (S.left source.old) (S.left source.new) bytes }
    ensures script { (f : ScriptFault) → result.exit ≡ Exit.Script f → IfSome (S.left source.old) (λ text. script_of text ≡ Err f) }
    ensures script_memory { result.exit ≡ Exit.Script faults.Memory → ⊥ }
    ensures read { result.exit ≡ Exit.ReadFault → Rose (S.faults source.old) (S.faults source.new) }
    ensures source_faults { S.faults source.old ≤ S.faults source.new }
    ensures source_tells { TellsAsBefore (S.left source.old) (S.left source.new) }
    ensures store { result.exit ≡ Exit.NotAStore → IfSome (D.contents disk) IsNoStore }
    ensures damaged { (cell : ℕ) → result.exit ≡ Exit.DamagedCell cell → IfSome (D.contents disk) (λ image. IsFirstDamaged image cell) }
    ensures unwritten { IsOfImage result.exit → (D.contents result.disk ≡ D.contents disk) × NoNewImage (D.may_leave disk) (D.may_leave result.disk) }
    ensures over_quota { (owner : ℕ) → result.exit ≡ Exit.OverQuota owner → IfSome (S.left source.old) StatesOwners × IfSome (D.contents disk) (IsOverQuota owner) }
    ensures disk_fault { result.exit ≡ Exit.DiskFault → Rose (D.faults disk) (D.faults result.disk) }
    ensures complete { (c : command.Command) → command_of (L.labels rules) (map (λ w. w.now) words.now) ≡ Some c → IsReadable c (S.left source.old) → (Rose (S.faults source.old) (S.faults source.new) → ⊥) → (Rose (K.faults sink.old) (K.faults sink.new) → ⊥) → (Rose (D.faults disk) (D.faults result.disk) → ⊥) →
        HasStore (D.contents disk) → KeepsQuotas c (S.left source.old) (D.contents disk) → IsDonePlainly D.Disk A.Devices L.Picked.Admission (L.labels rules) (S.left source.old) disk devices c result.disk result.devices result.exit (K.taken sink.old) (K.taken sink.new) ⊎ (result.exit ≡ Exit.Memory) }
    ensures no_store { (c : command.Command) → command_of (L.labels rules) (map (λ w. w.now) words.now) ≡ Some c → IsReadable c (S.left source.old) → (Rose (S.faults source.old) (S.faults source.new) → ⊥) → (Rose (D.faults disk) (D.faults result.disk) → ⊥) →
        IsSomeAnd (D.contents disk) IsNoStore → (result.exit ≡ Exit.NotAStore) ⊎ (result.exit ≡ Exit.Memory) }
    ensures bad_cell { (c : command.Command) → command_of (L.labels rules) (map (λ w. w.now) words.now) ≡ Some c → IsReadable c (S.left source.old) → (Rose (S.faults source.old) (S.faults source.new) → ⊥) → (Rose (D.faults disk) (D.faults result.disk) → ⊥) →
        (cell : ℕ) → IsSomeAnd (D.contents disk) (λ image. IsFirstDamaged image cell) → (result.exit ≡ Exit.DamagedCell cell) ⊎ (result.exit ≡ Exit.Memory) }
    ensures quota { (options : options.RunOptions) → command_of (L.labels rules) (map (λ w. w.now) words.now) ≡ Some (commands.Run options) → IsSomeAnd (S.left source.old) StatesOwners → (Rose (S.faults source.old) (S.faults source.new) → ⊥) → (Rose (D.faults disk) (D.faults result.disk) → ⊥) →
        (owner : ℕ) → IsSomeAnd (D.contents disk) (IsOverQuota owner) → (result.exit ≡ Exit.OverQuota owner) ⊎ (result.exit ≡ Exit.Memory) }
    ensures refused { (options : options.RunOptions) → command_of (L.labels rules) (map (λ w. w.now) words.now) ≡ Some (commands.Run options) → (Rose (S.faults source.old) (S.faults source.new) → ⊥) →
        IfSome (S.left source.old) (λ text. (f : ScriptFault) → script_of text ≡ Err f → (result.exit ≡ Exit.Script f) ⊎ (result.exit ≡ Exit.Memory)) }
{
    match read_words(alloc, words, &rules) {
        Ok(Some(Command::Run(options))) => {
            let rules = rules.pick(options.labels.as_slice());
            run_script(rt, alloc, &options, source, sink, disk, devices, rules)
        }
        Ok(Some(Command::Generate { count })) => {
            let rules = rules.pick(&[]);
            run_generator(rt, alloc, count, sink, disk, devices, rules)
        }
        Ok(None) => Ended::of(Exit::Usage, disk, devices),
        Err(Memory) => Ended::of(Exit::Memory, disk, devices),
    }
}
