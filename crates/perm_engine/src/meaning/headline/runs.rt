//! Laws of runs: each is the contract of a function that does nothing.
ghost use Rattle.std.specs.Prelude.{ℕ, ◌≤◌, List, length};
ghost use Rattle.perm_catalog.specs.Contents.{Contents};
ghost use Rattle.perm_catalog.specs.Sound.{IsSound};
ghost use Rattle.sql_tree.specs.Regular.{Each, RegularStatement};
ghost use Rattle.sql_tree.specs.declared.statement.Statement.{Statement};
ghost use Rattle.statement_meaning.specs.Answers.{Files, can_be};
ghost use Rattle.perm_engine.specs.meaning.Run.{Ran, RunsFrom};
ghost use Rattle.perm_engine.specs.meaning.headline.Course.{Course};

use statement_meaning::statements_keep_catalogs_sound;

/// A run of statements from some contents meets each of them over what those before it left: each text is that of the statement
/// at its place, and behind the texts no statement is left, or the next one is refused.
pub fn a_run_is_the_course_of_its_statements()
    ensures { (files : Files) (c : Contents) (statements : List Statement) (ran : Ran)
        → RunsFrom (can_be files) c statements ran → Course (can_be files) c statements ran }
{}

/// Where the first of regular statements is met over sound contents, each is.
pub fn the_contents_of_a_run_are_sound()
    ensures { (files : Files) (c : Contents) (statements : List Statement) (ran : Ran)
        → IsSound c → Each RegularStatement statements → (met : Course (can_be files) c statements ran)
        → (k : ℕ) → k ≤ length ran.texts → IsSound (met.left k) }
{
    statements_keep_catalogs_sound();
}
