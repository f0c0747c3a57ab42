ghost use Rattle.std.specs.Prelude.{◌≡◌, IsTrue, false};
ghost use Rattle.perm_catalog.specs.Sound.{IsSound};
ghost use Rattle.perm_io.specs.Counts.{next_count};
ghost use Rattle.statement_meaning.specs.Answers.{begins, over};
ghost use Rattle.statement_meaning.specs.laws.Sounder.{KeepsSound};
ghost use Rattle.statement_meaning.specs.Asking.{asks};
ghost use Rattle.statement_meaning.specs.Carrying.{IsCarriedOut};
ghost use Rattle.statement_meaning.specs.Ready.{IsReady};
ghost use Rattle.statement_steps.specs.Running.{KeepsRun};

use name_meaning::Resolved;
use perm_catalog::Catalog;
use perm_io::Files;
use perm_values::Bytes;
use statement_meaning::StepRefusal;
use statement_steps::{Runner, step};
use std::alloc::Global;

/// Carries out a resolved statement at an offset over a sound catalog, which stays sound.
pub fn carried_out<F: Files>(
    alloc: Global,
    catalog: &mut Catalog,
    files: &mut F,
    at: usize,
    resolved: &Resolved,
    runner: &mut Runner,
) -> Result<Bytes, StepRefusal>
    requires before { IsSound catalog.old }
    requires ready { IsReady catalog.old resolved.now }
    requires sound { KeepsSound (asks catalog.old at resolved.now) }
    ensures done { IsCarriedOut (asks catalog.old at resolved.now) catalog.old catalog.new result
        (over (F.told files.old) (F.told files.new)) }
    ensures sound { IsSound catalog.new }
    ensures begun { IsTrue (begins (asks catalog.old at resolved.now))
        → (F.told files.new).begun ≡ next_count (F.told files.old).begun }
    ensures unbegun { begins (asks catalog.old at resolved.now) ≡ false → files.new ≡ files.old }
    ensures ran { KeepsRun catalog.old resolved.now result runner.old runner.new }
{
    step(alloc, catalog, files, at, resolved, runner)
}
