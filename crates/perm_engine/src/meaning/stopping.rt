//! How a run ends that is refused.
ghost use Rattle.std.specs.Prelude.{◌≡◌, ◌≢◌, ◌⊎◌, ◌↔◌, true, false};
ghost use Rattle.perm_catalog.specs.Contents.{Contents};
ghost use Rattle.sql_tree.specs.declared.statement.Statement.{Statement};
ghost use Rattle.statement_meaning.specs.Answers.{failed};
ghost use Rattle.perm_engine.specs.meaning.Ends.{Ends, EndsRefused, EndsStopped, over};
ghost use Rattle.perm_engine.specs.meaning.Run.{ended, IsOfScript, IsWhole};
ghost use Rattle.perm_engine.specs.meaning.Stops.{Stop, fault_code, line_of, refusal_status, status_of};

use crate::meaning::status::Status;
use csv_tables::{Line, data_line, error_line};
use name_seen_parts::Refusal;
use null_logic::RunFault;
use perm_io::{Sink, write_all};
use statement_meaning::StepRefusal;

/// Writes a line and flushes the output; the status is the one given, unless the output fails.
pub fn finish<K: Sink>(out: &mut K, line: &[u8], status: Status) -> Status
    requires { IsWhole status }
    ensures ends { (stop : Stop) → line_of stop ≡ line.now → status_of stop ≡ status
        → Ends (ended stop) 0 (over (K.told out.old) (K.told out.new)) result }
    ensures status { (result ≡ status) ⊎ (result ≡ Status.WriteFault) }
{
    match write_all(out, line) {
        Ok(()) => match out.flush() {
            Ok(()) => status,
            Err(_) => Status::WriteFault,
        },
        Err(_) => Status::WriteFault,
    }
}

/// Ends the output with what the refusal of a script says.
pub fn refuse<K: Sink>(refusal: Refusal, out: &mut K) -> Status
    ensures ends { EndsRefused refusal (over (K.told out.old) (K.told out.new)) result }
    ensures status { (result ≡ Status.Syntax) ⊎ ((result ≡ Status.WriteFault) ⊎ (result ≡ Status.NoMemory)) }
{
    match refusal {
        Refusal::Break(found) => {
            let line = error_line(found.rule.code(), found.at);
            finish(out, line.as_slice(), Status::Syntax)
        }
        Refusal::NoMemory => Status::NoMemory,
    }
}

/// Ends the output with what the refusal of a statement says.
pub fn stop<K: Sink>(refusal: StepRefusal, out: &mut K) -> Status
    ensures ends { (c : Contents) (statement : Statement)
        → EndsStopped c statement refusal (over (K.told out.old) (K.told out.new)) result }
    ensures status { (result ≡ refusal_status refusal) ⊎ (result ≡ Status.WriteFault) }
{
    match refusal {
        StepRefusal::Break(found) => end(
            Status::Refused,
            error_line(found.rule.code(), found.at),
            out,
        ),
        StepRefusal::Run { fault, at } => {
            end(Status::RunFault, error_line(fault_code(fault), at), out)
        }
        StepRefusal::Missing { at } => end(Status::BadData, error_line(40, at), out),
        StepRefusal::TooLarge { at } => end(Status::BadData, error_line(41, at), out),
        StepRefusal::Unfit(rule) => end(Status::BadData, data_line(rule), out),
        StepRefusal::ReadFault => finish(out, b"error E50\n", Status::ReadFault),
        StepRefusal::NoMemory => Status::NoMemory,
    }
}

/// Ends the output with this line.
fn end<K: Sink>(status: Status, line: Line, out: &mut K) -> Status
    requires { IsWhole status }
    ensures ends { (stop : Stop) → line_of stop ≡ line → status_of stop ≡ status
        → Ends (ended stop) 0 (over (K.told out.old) (K.told out.new)) result }
    ensures status { (result ≡ status) ⊎ (result ≡ Status.WriteFault) }
{
    finish(out, line.as_slice(), status)
}

/// The number of a fault's code.
fn fault_code(fault: RunFault) -> u8
    ensures { result ≡ fault_code fault }
{
    match fault {
        RunFault::DivideByZero => 30,
        RunFault::OutOfRange => 31,
        RunFault::SeveralRows => 32,
    }
}
