//! A command line, from its words to the bytes that its statements answer. The steps in their order, each with the call that
//! takes it and the definition by which that call is promised:
//!
//! | Step | Call | By |
//! |---|---|---|
//! | what the words ask for | `read_words` in `perm` | `request_of` |
//! | the bytes of the script's file | `read_all` in `run_named` | `CanBe` |
//! | or a script that is made | `generate` in `run_generated` | `generated` |
//! | their tree | `script_of` in `run_script` | `IsScriptOf`, `IsMisspelled` |
//! | one statement after another | `Session::step` in `run_statements` | `RunsFrom`, `asked` |
//! | what its names name | `resolve`, below `Session::step` | `breaks`, `resolved` |
//! | what it does | `carried_out`, `step`, and of a query `select` | `asks`, `Turn` |
//! | a query without PROVENANCE, and a simpler one | `eliminate` and `simplify`, below `select` and `explain` | `Stands` |
//! | its rows | `run_hashed`, below `Runner::run` | `meaning` |
//! | their order and their text | `in_order`, and `answer_text` behind it | `answer_text` |
//! | or the text of the query itself | `print`, below `explain` | `Explains` |
//! | why the run ends | `finish`, `refuse`, `stop` | `Ends` |
ghost use Rattle.std.specs.Prelude.{◌≡◌, ◌⊎◌, true, false};
ghost use Rattle.perm_engine.specs.meaning.words.Requests.{request_of};
ghost use Rattle.perm_engine.specs.declared.meaning.words.wanted.Wanted.TheVariants.{Misworded};
ghost use Rattle.perm_engine.specs.meaning.generation.Generated.{generated};
ghost use Rattle.perm_engine.specs.meaning.headline.Headline.{IsTold};
ghost use Rattle.perm_catalog.specs.Changes.{nothing_held};
ghost use Rattle.perm_io.specs.Counts.{HasRisen};
ghost use Rattle.perm_io.specs.Found.{CanBe};
ghost use Rattle.sql_tree.specs.Regular.{RegularStatement, Each};
ghost use Rattle.statement_meaning.specs.Answers.{can_be, file_limit};
ghost use Rattle.statement_meaning.specs.Answers.{over as seen};
ghost use Rattle.perm_engine.specs.meaning.Ends.{Completes, EndsOne, EndsSome, over};
ghost use Rattle.perm_engine.specs.meaning.Run.{Runs, RunsFrom, RunsNamed, RunsScript, script_files, IsWhole, IsSteady, IsOfScript};

use crate::meaning::{
    SCRIPT_LIMIT, Status, Wanted, every_run_is_told_by_the_headline, finish, generate, read_words,
    refuse, script_of, stop,
};
use crate::session::Session;
use name_statements::let_statements_go;
use perm_io::{Files, ReadError, Sink, read_all, write_all};
use perm_values::{Chars, List, NoMemory};
use sql_parser::a_spelled_script_is_regular;
use sql_tree::Statement;
use std::alloc::Global;

/// Runs the statements in order from an empty catalog, and writes their texts; the first that is refused ends the run.
fn run_statements<F: Files, K: Sink>(
    alloc: Global,
    statements: List<Statement>,
    files: &mut F,
    out: &mut K,
) -> Status
    requires { Each RegularStatement statements }
    ensures ends { let met = seen (F.told files.old) (F.told files.new) in
        EndsSome (can_be met) (RunsFrom (can_be met) (nothing_held 1) statements)
        (over (K.told out.old) (K.told out.new)) met result }
    ensures status { IsOfScript result }
    ensures read_fault { result ≡ Status.ReadFault
        → HasRisen (F.told files.old).faults (F.told files.new).faults }
    ensures steady { IsSteady result → (F.told files.new).faults ≡ (F.told files.old).faults }
    ensures held { (F.told files.new).held ≡ (F.told files.old).held }
{
    let mut session = Session::new(alloc);
    // What is left is let go in a call: a loop that owned it would drop trees here.
    let mut left = statements.into_vec().into_iter();
    while let Some(statement) = left.next() {
        match session.step(statement, files) {
            Ok(text) => match write_all(out, text.as_slice()) {
                Ok(()) => {}
                Err(_) => {
                    let_statements_go(left);
                    session.let_go();
                    return Status::WriteFault;
                }
            },
            Err(refusal) => {
                let_statements_go(left);
                session.let_go();
                return stop(refusal, out);
            }
        }
    }
    let_statements_go(left);
    session.let_go();
    finish(out, b"", Status::Done)
}

/// Runs the script that the bytes spell, or refuses it as a whole.
fn run_script<F: Files, K: Sink>(alloc: Global, bytes: &[u8], files: &mut F, out: &mut K) -> Status
    ensures ends { let met = seen (F.told files.old) (F.told files.new) in
        EndsOne 0 (can_be met) (RunsScript (can_be met) bytes.now)
        (over (K.told out.old) (K.told out.new)) met result }
    ensures status { IsOfScript result }
    ensures read_fault { result ≡ Status.ReadFault
        → HasRisen (F.told files.old).faults (F.told files.new).faults }
    ensures steady { IsSteady result → (F.told files.new).faults ≡ (F.told files.old).faults }
    ensures held { (F.told files.new).held ≡ (F.told files.old).held }
{
    a_spelled_script_is_regular();
    match script_of(alloc, bytes) {
        Ok(script) => run_statements(alloc, script.statements, files, out),
        Err(refusal) => refuse(refusal, out),
    }
}

/// Runs the script in the file of this name.
fn run_named<F: Files, K: Sink>(alloc: Global, name: &Chars, files: &mut F, out: &mut K) -> Status
    ensures ends { let met = seen (F.told files.old) (F.told files.new) in
        EndsOne 1 (can_be met) (RunsNamed met.held (HasRisen met.faults met.faults_after) name.now)
        (over (K.told out.old) (K.told out.new)) met result }
    ensures status { IsOfScript result }
    ensures read_fault { result ≡ Status.ReadFault
        → HasRisen (F.told files.old).faults (F.told files.new).faults }
    ensures steady { IsSteady result → (F.told files.new).faults ≡ (F.told files.old).faults }
    ensures held { (F.told files.new).held ≡ (F.told files.old).held }
{
    match read_all(alloc, files, name, SCRIPT_LIMIT) {
        Ok(bytes) => run_script(alloc, bytes.as_slice(), files, out),
        Err(ReadError::Missing) => finish(out, b"error E40 script\n", Status::BadData),
        Err(ReadError::TooLarge) => finish(out, b"error E41 script\n", Status::BadData),
        Err(ReadError::Fault) => finish(out, b"error E50\n", Status::ReadFault),
        Err(ReadError::NoMemory) => Status::NoMemory,
    }
}

/// Runs the script that is made from the number.
fn run_generated<F: Files, K: Sink>(alloc: Global, rows: u32, files: &mut F, out: &mut K) -> Status
    ensures ends { let met = seen (F.told files.old) (F.told files.new) in
        EndsOne 0 (can_be met) (RunsScript (can_be met) (generated rows))
        (over (K.told out.old) (K.told out.new)) met result }
    ensures status { IsOfScript result }
    ensures read_fault { result ≡ Status.ReadFault
        → HasRisen (F.told files.old).faults (F.told files.new).faults }
    ensures steady { IsSteady result → (F.told files.new).faults ≡ (F.told files.old).faults }
    ensures held { (F.told files.new).held ≡ (F.told files.old).held }
{
    match generate(alloc, rows) {
        Ok(text) => run_script(alloc, text.as_slice(), files, out),
        Err(NoMemory) => Status::NoMemory,
    }
}

/// Runs a command line: `perm SCRIPT` the script in that file, `perm --generate N` the one that is made from the number; writes
/// what its statements answer.
pub fn perm<F: Files, K: Sink>(alloc: Global, words: &[Chars], files: &mut F, out: &mut K) -> Status
    // One run that the words and files stand for is what is written, and its status is answered. The headline tells it, it ends for its
    // cause, and where the output or memory cut it short nothing behind that was begun.
    ensures run { let met = seen (F.told files.old) (F.told files.new) in
        EndsOne (script_files (request_of words.now)) (can_be met) (IsTold words.now met result)
        (over (K.told out.old) (K.told out.new)) met result }

    // Where no file and no write failed, it is a whole run in which none failed, unless memory was wanting.
    ensures complete { (HasRisen (F.told files.old).faults (F.told files.new).faults → ⊥)
        → (HasRisen (K.told out.old).faults (K.told out.new).faults → ⊥)
        → Completes (Runs words.now (F.told files.old).held ⊥) (over (K.told out.old) (K.told out.new))
        (seen (F.told files.old) (F.told files.new)) result }

    // When each status comes.
    ensures usage { result ≡ Status.Usage → request_of words.now ≡ Misworded }
    ensures misused { request_of words.now ≡ Misworded
        → (result ≡ Status.Usage) ⊎ ((result ≡ Status.WriteFault) ⊎ (result ≡ Status.NoMemory)) }
    ensures read_fault { result ≡ Status.ReadFault
        → HasRisen (F.told files.old).faults (F.told files.new).faults }
    ensures write_fault { result ≡ Status.WriteFault
        → HasRisen (K.told out.old).faults (K.told out.new).faults }
    ensures steady { IsSteady result
        → ((F.told files.new).faults ≡ (F.told files.old).faults)
        × ((K.told out.new).faults ≡ (K.told out.old).faults) }
    ensures flushed { IsWhole result → (K.told out.new).unflushed ≡ false }

    // No file is begun where the words are refused, and no file is changed.
    ensures begun { request_of words.now ≡ Misworded → (F.told files.new).begun ≡ (F.told files.old).begun }
    ensures held { (F.told files.new).held ≡ (F.told files.old).held }
{
    every_run_is_told_by_the_headline();
    match read_words(alloc, words) {
        Ok(Wanted::Script(name)) => run_named(alloc, &name, files, out),
        Ok(Wanted::Generated(rows)) => run_generated(alloc, rows, files, out),
        Ok(Wanted::Misworded) => finish(
            out,
            b"usage: perm (SCRIPT | --generate N)\n",
            Status::Usage,
        ),
        Err(NoMemory) => Status::NoMemory,
    }
}
