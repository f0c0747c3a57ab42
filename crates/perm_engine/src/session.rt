ghost use Rattle.std.specs.Prelude.{◌≡◌, ◌⊎◌, Err, IsTrue, true, false};
ghost use Rattle.perm_catalog.specs.Changes.{nothing_held};
ghost use Rattle.perm_catalog.specs.Sound.{IsSound};
ghost use Rattle.perm_io.specs.Counts.{next_count};
ghost use Rattle.sql_tree.specs.Regular.{RegularStatement};
ghost use Rattle.statement_meaning.specs.Answers.{begins, over};
ghost use Rattle.statement_meaning.specs.Asking.{asked};
ghost use Rattle.statement_meaning.specs.Carrying.{IsCarriedOut};
ghost use Rattle.statement_meaning.specs.declared.refusal.StepRefusal.TheVariants.{NoMemory as OutOfMemory};
ghost use Rattle.name_statements.specs.Own.{own_breaks};
ghost use Rattle.name_meaning.specs.Statements.{resolved};
ghost use Rattle.statement_steps.specs.Running.{KeepsRun};
ghost use Rattle.perm_engine.specs.meaning.Resolving.{IsDue, Resolves};
ghost use Rattle.perm_engine.specs.Sessions.{begun_with};

use crate::meaning::carried_out;
use name_analysis::resolve;
use name_meaning::Resolved;
use name_seen_parts::Refusal;
use name_statements::{let_catalog_go, let_resolved_go};
use perm_catalog::Catalog;
use perm_io::Files;
use perm_values::Bytes;
use sql_tree::Statement;
use statement_meaning::{
    StepRefusal, statements_keep_catalogs_sound, whole_statements_add_soundly,
    whole_statements_are_ready,
};
use statement_steps::Runner;
use std::alloc::Global;
use std::marker::Model;
use stored_provenance::catalogs_stay_sound;

/// Runs statements one after another over a sound catalog, and keeps the last run of a query. Contracts see it as both.
#[derive(Drop)]
pub struct Session {
    alloc: Global,
    catalog: Catalog,
    runner: Runner,
}

impl Model for Session {
    ghost use Rattle.std.specs.Coded.{coded_option};
    ghost use Rattle.perm_catalog.specs.Contents.{contents_code};
    ghost use Rattle.perm_catalog.specs.Sound.{IsSound};
    ghost use Rattle.perm_catalog.specs.contracts.entries.TableEntry as table;
    ghost use Rattle.perm_catalog.specs.contracts.entries.ViewEntry as view_entry;
    ghost use Rattle.perm_values.specs.contracts.value.Value as cell;
    ghost use Rattle.statement_steps.specs.contracts.ran.Ran as run;
    ghost use Rattle.perm_engine.specs.Sessions.{SessionState, session_code};

    ghost Value = { SessionState };

    ghost coded = { session_code
        (contents_code table.the_row.coded view_entry.the_row.coded cell.the_row.coded)
        (coded_option run.the_row.coded) };

    ghost view = { λ s. record { contents = s.catalog; last = s.runner } };

    ghost invariant = { λ s. IsSound s.catalog };
}

impl Session {
    /// A session over an empty catalog, which draws 1 first. It has no last run. It takes no memory.
    pub fn new(alloc: Global) -> Session
        ensures { result ≡ begun_with (nothing_held 1) }
    {
        catalogs_stay_sound();
        Session::with(alloc, Catalog::new(alloc, 1))
    }

    /// A session over this sound catalog. It has no last run. It takes no memory.
    pub fn with(alloc: Global, catalog: Catalog) -> Session
        requires { IsSound catalog }
        ensures { result ≡ begun_with catalog }
    {
        Session {
            alloc,
            catalog,
            runner: Runner::new(),
        }
    }

    /// The tables and views as they stand, which are sound.
    pub fn catalog(&self) -> &Catalog
        ensures same { result.now ≡ self.now.contents }
        ensures sound { IsSound result.now }
    {
        &self.catalog
    }

    /// The runner of its queries, with the last run. It takes no memory.
    pub fn runner(&self) -> &Runner
        ensures { result.now ≡ self.now.last }
    {
        &self.runner
    }

    /// Lets the catalog and the last run go.
    pub(crate) fn let_go(self) {
        let_catalog_go(self.catalog);
        self.runner.let_go();
    }

    /// Runs a statement and gives its text. The first rule that it breaks refuses it, and then what it meets while it runs.
    /// A COPY that breaks no rule begins its file, and no other statement begins any. After a refusal the catalog is as
    /// before.
    ///
    /// The rows that a query answers, and those that CREATE TABLE AS stores, are those of the last run, of a query without
    /// PROVENANCE that stands for it; those that an IMPACT answers are of a query that tells which rows vanish.
    /// What the last run is after a refusal of these is left open.
    pub fn step<F: Files>(
        &mut self,
        statement: Statement,
        files: &mut F,
    ) -> Result<Bytes, StepRefusal>
        requires regular { RegularStatement statement }
        // What it asks for has become of it.
        ensures done { IsCarriedOut (asked self.old.contents statement) self.old.contents self.new.contents
            result (over (F.told files.old) (F.told files.new)) }
        ensures sound { IsSound self.new.contents }

        // What its own names break is answered however little memory there is.
        ensures due { IsDue (own_breaks self.old.contents statement.body) result }

        // The file is begun, unless memory was wanting before.
        ensures begun { IsTrue (begins (asked self.old.contents statement))
            → ((F.told files.new).begun ≡ next_count (F.told files.old).begun)
            ⊎ ((result ≡ Err OutOfMemory) × ((F.told files.new).begun ≡ (F.told files.old).begun)) }
        ensures unbegun { begins (asked self.old.contents statement) ≡ false → files.new ≡ files.old }

        // The run that gave a query's rows, those of CREATE TABLE AS, or those of an IMPACT.
        ensures ran { KeepsRun self.old.contents (resolved self.old.contents statement) result
            self.old.last self.new.last }
    {
        let at = statement.at;
        let resolved = resolved_statement(self.alloc, &self.catalog, statement)?;
        let runner = &mut self.runner;
        let told = carried_out(self.alloc, &mut self.catalog, files, at, &resolved, runner);
        let_resolved_go(resolved);
        told
    }
}

/// The statement with its names looked up, which can be carried out and keeps the catalog sound; or why it can't stand: it
/// breaks a rule of names and kinds.
fn resolved_statement(
    alloc: Global,
    catalog: &Catalog,
    statement: Statement,
) -> Result<Resolved, StepRefusal>
    requires sound { IsSound catalog.now }
    requires regular { RegularStatement statement }
    ensures resolves { Resolves catalog.now statement result }
    ensures due { IsDue (own_breaks catalog.now statement.body) result }
{
    whole_statements_are_ready();
    whole_statements_add_soundly();
    statements_keep_catalogs_sound();
    match resolve(alloc, catalog, statement) {
        Ok(resolved) => Ok(resolved),
        Err(Refusal::Break(found)) => Err(StepRefusal::Break(found)),
        Err(Refusal::NoMemory) => Err(StepRefusal::NoMemory),
    }
}
