//! The commands of the program.

ghost use Rattle.std.specs.Prelude.{false, ◌≡◌, ◌≢◌, ◌↔◌, ◌^◌, ℕ, List, [], length, Some, None, IfOk, option_map};
ghost use Rattle.ground_io.specs.Causes.{Rose};
ghost use Rattle.ground_model.specs.declared.entry.Entry.{Entry};
ghost use Rattle.turn_lock.specs.Setting.{setting};
ghost use Rattle.session.specs.Talk.{Talk};
ghost use Rattle.session.specs.declared.conversation.Ended.TheVariants as ended;
ghost use Rattle.landxml_surface.specs.declared.origin.OriginRule.{OriginRule as Rule};
ghost use Rattle.document_commands.specs.Streams.{sides, stream};
ghost use Rattle.terrain_main.specs.Documents.{RunsCheck, RunsRewrite, RunsHelp};
ghost use Rattle.terrain_main.specs.Commands.{command_of, name_of as name_by, reads_input, puts_line, IsEmptyGround, both_sides, sink_side, fault_line, code_of, words_or_none, RunsTalk, RunsTrial, PutsLine};
ghost use Rattle.terrain_main.specs.declared.words.Command.TheVariants as commands;
ghost use Rattle.terrain_main.specs.declared.status.Status.{Status as Ending};
ghost use Rattle.terrain_main.specs.declared.status.Status.TheVariants.{Usage, ReadFault, WriteFault};

use crate::documents::{run_check, run_help, run_rewrite};
use crate::reporting::run_trial;
use crate::status::Status;
use crate::words::{Command, command_of, name_of};
use ground_io::{Pair, Sink, Source, write_all};
use ground_model::Limits;
use ground_num::{Head, Name};
use session::{Ended, talk};
use std::alloc::{AllocError, Global};
use store::Store;

/// The bytes that one session may read.
const BUDGET: u64 = 1 << 40;

// The surface of `talk`: empty, named `ground`, in metres, with the origin 0 0.
fn empty_ground(alloc: Global) -> Result<Store, AllocError>
    ensures { IfOk result (λ store. IsEmptyGround store.journal) }
{
    let Ok(name) = Name::from_bytes(alloc, b"ground") else {
        return Err(AllocError);
    };
    Store::empty(alloc, Head::plain(name), Limits::FULL)
}

// A session over the two streams, on this surface.
fn talk_over<I: Source, O: Sink>(
    alloc: Global,
    store: &mut Store,
    input: &mut I,
    output: &mut O,
) -> Ended
    ensures session { (entries : List Entry) × Talk (record { setting = setting store.old.journal; author = 1; start = length store.old.journal.entries }) (2 ^ 40) (record { entries = store.old.journal.entries; wire = both_sides (I.left input.old) (O.written output.old) (I.read_faults input.old) (O.write_faults output.old) }) (record { entries = entries; wire = both_sides (I.left input.new) (O.written output.new) (I.read_faults input.new) (O.write_faults output.new) }) result }
    ensures read_fault { result ≡ ended.ReadFault → Rose (I.read_faults input.old) (I.read_faults input.new) }
    ensures reads_passed { result ≢ ended.ReadFault → I.read_faults input.new ≡ I.read_faults input.old }
    ensures write_fault { result ≡ ended.WriteFault → Rose (O.write_faults output.old) (O.write_faults output.new) }
    ensures writes_passed { result ≢ ended.WriteFault → O.write_faults output.new ≡ O.write_faults output.old }
{
    let mut link = Pair::new(input, output);
    talk(alloc, store, &mut link, BUDGET)
}

// A session on the empty surface.
fn run_talk<I: Source, O: Sink>(alloc: Global, input: &mut I, output: &mut O) -> Status
    ensures talks { RunsTalk (both_sides (I.left input.old) (O.written output.old) (I.read_faults input.old) (O.write_faults output.old)) (both_sides (I.left input.new) (O.written output.new) (I.read_faults input.new) (O.write_faults output.new)) result }
    ensures read_fault { result ≡ ReadFault → Rose (I.read_faults input.old) (I.read_faults input.new) }
    ensures reads_passed { result ≢ ReadFault → I.read_faults input.new ≡ I.read_faults input.old }
    ensures write_fault { result ≡ WriteFault → Rose (O.write_faults output.old) (O.write_faults output.new) }
    ensures writes_passed { result ≢ WriteFault → O.write_faults output.new ≡ O.write_faults output.old }
{
    match empty_ground(alloc) {
        Ok(mut store) => Status::of_session(talk_over(alloc, &mut store, input, output)),
        Err(_) => Status::Memory,
    }
}

/// Runs the command that the words are: `check`, which reports on a document, `rewrite`, which writes
/// a surface of one, `talk`, a session over the two streams on an empty surface, `trial`, which
/// writes its report, or `help`, which lists the commands. Any other words are `Usage`. It returns,
/// whatever its source and sink do.
pub fn run<I: Source, O: Sink>(
    alloc: Global,
    words: &[String],
    input: &mut I,
    output: &mut O,
) -> Status
    ensures usage { (result ≡ Usage) ↔ (command_of words.now ≡ None) }
    ensures fault_line { result ≡ Usage → PutsLine (O.written output.old) (O.written output.new) (O.write_faults output.old) (O.write_faults output.new) fault_line }
    ensures unread { reads_input (command_of words.now) ≡ false → input.new ≡ input.old }
    ensures checks { (rule : Rule) → command_of words.now ≡ Some (commands.Check rule) → RunsCheck rule (sides (I.left input.old) (I.read_faults input.old) (O.written output.old) (O.write_faults output.old)) (sides (I.left input.new) (I.read_faults input.new) (O.written output.new) (O.write_faults output.new)) result }
    ensures rewrites { (rule : Rule) → command_of words.now ≡ Some (commands.Rewrite rule) → RunsRewrite (name_by words.now) rule (sides (I.left input.old) (I.read_faults input.old) (O.written output.old) (O.write_faults output.old)) (sides (I.left input.new) (I.read_faults input.new) (O.written output.new) (O.write_faults output.new)) result }
    ensures helps { command_of words.now ≡ Some commands.Help → RunsHelp (stream (O.written output.old) (O.write_faults output.old)) (stream (O.written output.new) (O.write_faults output.new)) result }
    ensures talks { command_of words.now ≡ Some commands.Talk → RunsTalk (both_sides (I.left input.old) (O.written output.old) (I.read_faults input.old) (O.write_faults output.old)) (both_sides (I.left input.new) (O.written output.new) (I.read_faults input.new) (O.write_faults output.new)) result }
    ensures reports { (seed count : ℕ) → command_of words.now ≡ Some (commands.Trial seed count) → RunsTrial seed count (sink_side (O.written output.old) (O.write_faults output.old)) (sink_side (O.written output.new) (O.write_faults output.new)) result }
    ensures read_fault { result ≡ ReadFault → Rose (I.read_faults input.old) (I.read_faults input.new) }
    ensures reads_passed { result ≢ ReadFault → I.read_faults input.new ≡ I.read_faults input.old }
    ensures write_fault { result ≡ WriteFault → Rose (O.write_faults output.old) (O.write_faults output.new) }
    ensures writes_passed { puts_line result ≡ false → result ≢ WriteFault → O.write_faults output.new ≡ O.write_faults output.old }
{
    match command_of(words) {
        Some(Command::Check(rule)) => run_check(alloc, rule, input, output),
        Some(Command::Rewrite(rule)) => run_rewrite(alloc, name_of(words), rule, input, output),
        Some(Command::Talk) => run_talk(alloc, input, output),
        Some(Command::Trial(seed, count)) => run_trial(alloc, seed, count, output),
        Some(Command::Help) => run_help(output),
        None => {
            let _ = write_all(output, b"fault usage\n");
            Status::Usage
        }
    }
}

/// What `main` does over its real objects: runs the words, and gives the exit status. Words that
/// can't be had are no command.
pub fn exit_status<I: Source, O: Sink>(
    alloc: Global,
    words: Option<Vec<String>>,
    input: &mut I,
    output: &mut O,
) -> u8
    ensures usage { (result ≡ code_of Usage) ↔ (command_of (words_or_none (option_map (λ w. w.items) words)) ≡ None) }
    ensures fault_line { result ≡ code_of Usage → PutsLine (O.written output.old) (O.written output.new) (O.write_faults output.old) (O.write_faults output.new) fault_line }
    ensures unread { reads_input (command_of (words_or_none (option_map (λ w. w.items) words))) ≡ false → input.new ≡ input.old }
    ensures checks { (rule : Rule) → command_of (words_or_none (option_map (λ w. w.items) words)) ≡ Some (commands.Check rule) → (status : Ending) × (result ≡ code_of status) × RunsCheck rule (sides (I.left input.old) (I.read_faults input.old) (O.written output.old) (O.write_faults output.old)) (sides (I.left input.new) (I.read_faults input.new) (O.written output.new) (O.write_faults output.new)) status }
    ensures rewrites { (rule : Rule) → command_of (words_or_none (option_map (λ w. w.items) words)) ≡ Some (commands.Rewrite rule) → (status : Ending) × (result ≡ code_of status) × RunsRewrite (name_by (words_or_none (option_map (λ w. w.items) words))) rule (sides (I.left input.old) (I.read_faults input.old) (O.written output.old) (O.write_faults output.old)) (sides (I.left input.new) (I.read_faults input.new) (O.written output.new) (O.write_faults output.new)) status }
    ensures helps { command_of (words_or_none (option_map (λ w. w.items) words)) ≡ Some commands.Help → (status : Ending) × (result ≡ code_of status) × RunsHelp (stream (O.written output.old) (O.write_faults output.old)) (stream (O.written output.new) (O.write_faults output.new)) status }
    ensures talks { command_of (words_or_none (option_map (λ w. w.items) words)) ≡ Some commands.Talk → (status : Ending) × (result ≡ code_of status) × RunsTalk (both_sides (I.left input.old) (O.written output.old) (I.read_faults input.old) (O.write_faults output.old)) (both_sides (I.left input.new) (O.written output.new) (I.read_faults input.new) (O.write_faults output.new)) status }
    ensures reports { (seed count : ℕ) → command_of (words_or_none (option_map (λ w. w.items) words)) ≡ Some (commands.Trial seed count) → (status : Ending) × (result ≡ code_of status) × RunsTrial seed count (sink_side (O.written output.old) (O.write_faults output.old)) (sink_side (O.written output.new) (O.write_faults output.new)) status }
    ensures read_fault { result ≡ code_of ReadFault → Rose (I.read_faults input.old) (I.read_faults input.new) }
    ensures write_fault { result ≡ code_of WriteFault → Rose (O.write_faults output.old) (O.write_faults output.new) }
{
    match words {
        Some(words) => run(alloc, words.as_slice(), input, output).code(),
        None => run(alloc, &[], input, output).code(),
    }
}
