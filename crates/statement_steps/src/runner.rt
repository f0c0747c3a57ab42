ghost use Rattle.std.specs.Prelude.{◌≡◌, [], None, IsTrue};
ghost use Rattle.std.specs.Option.{option_copied};
ghost use Rattle.perm_values.specs.Rows.{printed_cmp};
ghost use Rattle.bag_algebra.specs.Bags.{sorted};
ghost use Rattle.bag_algebra.specs.Meaning.{meaning};
ghost use Rattle.bag_algebra.specs.Outcome.{mapped};
ghost use Rattle.bag_algebra.specs.Rewriting.{is_plain};
ghost use Rattle.bag_algebra.specs.TableRows.{rows_in};
ghost use Rattle.row_values.specs.Answers.{Gives};
ghost use Rattle.statement_steps.specs.Runs.{Keeps, run_of};

use crate::order::in_order;
use crate::ran::Ran;
use bag_algebra::{Env, Query, Tables};
use perm_values::{Key, Rows};
use row_executor::run_hashed;
use row_values::ExecError;
use std::alloc::Global;
use std::marker::Model;

/// Runs queries, and keeps the last run, as which contracts see it.
#[derive(Drop)]
pub struct Runner {
    last: Option<Ran>,
}

impl Model for Runner {
    ghost use Rattle.std.specs.Prelude.{Option};
    ghost use Rattle.std.specs.Coded.{coded_option};
    ghost use Rattle.statement_steps.specs.declared.ran.Ran.{Ran as Run};
    ghost use Rattle.statement_steps.specs.contracts.ran.Ran as run;

    ghost Value = { Option Run };

    ghost coded = { coded_option run.the_row.coded };

    ghost view = { λ runner. runner.last };
}

impl Runner {
    /// A runner that has run nothing. It takes no memory.
    pub fn new() -> Runner
        ensures { result ≡ None }
    {
        Runner { last: None }
    }

    /// The last run; `None` exactly where nothing was run or the latest query was refused. It takes no memory.
    pub fn last(&self) -> Option<&Ran>
        ensures { option_copied result ≡ self.now }
    {
        self.last.as_ref()
    }

    /// Lets the last run go.
    pub fn let_go(self) {
        drop(self.last);
    }

    /// Runs a query without PROVENANCE under no outer rows, and keeps it with its rows in the order of the keys, then of all
    /// columns. The run before is let go first.
    ///
    /// `Fault` names a fault that the query meets, and comes only where it meets one. After a refusal there is no last run.
    pub fn run(
        &mut self,
        alloc: Global,
        query: Query,
        keys: &[Key],
        tables: &Tables,
    ) -> Result<(), ExecError>
        requires { IsTrue (is_plain query) }
        ensures { Keeps (run_of query keys.now (rows_in tables.now)) result self.new }
    {
        drop(self.last.take());
        let ran = ran_of(alloc, query, keys, tables)?;
        drop(self.last.replace(ran));
        Ok(())
    }
}

/// The run of a query without PROVENANCE, its rows in the order of the keys, then of all columns.
fn ran_of(alloc: Global, query: Query, keys: &[Key], tables: &Tables) -> Result<Ran, ExecError>
    requires { IsTrue (is_plain query) }
    ensures { Gives (run_of query keys.now (rows_in tables.now)) result }
{
    match ordered_rows(alloc, &query, keys, tables) {
        Ok(rows) => Ok(Ran { query, rows }),
        Err(error) => {
            drop(query);
            Err(error)
        }
    }
}

/// The rows of a query without PROVENANCE, in the order of the keys, then of all columns.
fn ordered_rows(
    alloc: Global,
    query: &Query,
    keys: &[Key],
    tables: &Tables,
) -> Result<Rows, ExecError>
    requires { IsTrue (is_plain query.now) }
    ensures { Gives (mapped (sorted (printed_cmp keys.now)) (meaning query.now (rows_in tables.now) []))
        result }
{
    let env = Env::new(alloc);
    let rows = run_hashed(alloc, query, tables, &env)?;
    Ok(in_order(rows, keys)?)
}
