//! The headline as one law, and the laws of runs and of the word PROVENANCE on which it stands.
ghost use Rattle.std.specs.Prelude.{ℕ, List, Option};
ghost use Rattle.perm_io.specs.declared.named_file.NamedFile.{NamedFile};
ghost use Rattle.statement_meaning.specs.Answers.{Files};
ghost use Rattle.perm_engine.specs.meaning.Ends.{RunsOver};
ghost use Rattle.perm_engine.specs.meaning.Run.{Ran, Runs};
ghost use Rattle.perm_engine.specs.meaning.headline.Headline.{Headline, HeadlineOver};

use crate::meaning::{a_misspelling_has_one_break, bytes_are_one_script};
use sql_parser::a_spelled_script_is_regular;
use statement_meaning::{a_stored_query_is_fresh, statements_keep_catalogs_sound};
use stored_provenance::a_fresh_table_stands_for_its_query;

mod runs;
mod words;

pub use runs::{a_run_is_the_course_of_its_statements, the_contents_of_a_run_are_sound};
pub use words::{
    a_query_has_the_word_or_not, a_query_is_refused_or_asks, the_word_in_from_asks_for_provenance,
    without_the_word_a_query_breaks_no_more, without_the_word_no_provenance_stands_in_front,
};

/// Every run over a command line and files is told by the headline: over files that may have failed where their count of faults
/// rose, and over files of which none fails.
pub fn every_run_is_told_by_the_headline()
    ensures over { (words : List (List ℕ)) (files : Files) (ran : Ran) → RunsOver words files ran
        → HeadlineOver words files ran }
    ensures unfailed { (words : List (List ℕ)) (held : Option (List NamedFile)) (ran : Ran)
        → Runs words held ⊥ ran → Headline words held ⊥ ran }
{
    a_misspelling_has_one_break();
    bytes_are_one_script();
    a_spelled_script_is_regular();
    statements_keep_catalogs_sound();
    a_stored_query_is_fresh();
    a_fresh_table_stands_for_its_query();
}
