//! Each law is the contract of a function that does nothing.
ghost use Rattle.std.specs.Prelude.{◌≡◌, ◌⊎◌, ℕ, List, Some};
ghost use Rattle.name_meaning.specs.declared.answer.Break.{Break};
ghost use Rattle.perm_engine.specs.meaning.Run.{Ran, Runs};
ghost use Rattle.perm_engine.specs.meaning.Scripts.{IsScriptOf, IsMisspelled};
ghost use Rattle.perm_io.specs.declared.named_file.NamedFile.{NamedFile};
ghost use Rattle.sql_tree.specs.declared.statement.Script.{Script};
ghost use Rattle.perm_engine.specs.meaning.Same.{IsUnbroken, SameRun};

use crate::meaning::laws::bytes_are_one_script;
use sql_lexer::lexing_is_unique;
use sql_parser::{an_unexpected_token_has_one_offset, tokens_spell_a_script_or_one_is_unexpected};

/// Bytes are a script, or misspelled by one break.
pub fn a_misspelling_has_one_break()
    ensures one_break { (bytes : List ℕ) (a b : Break) → IsMisspelled bytes a → IsMisspelled bytes b → a ≡ b }
    ensures either { (bytes : List ℕ)
        → ((script : Script) × IsScriptOf bytes script) ⊎ ((b : Break) × IsMisspelled bytes b) }
{
    lexing_is_unique();
    an_unexpected_token_has_one_offset();
    tokens_spell_a_script_or_one_is_unexpected();
}

/// A command line has a run over files whose bytes are told and of which none fails, though maybe one that breaks off at an EXPLAIN
/// for want of memory; and of the others no two, but for which of the faults is named that a statement meets, and by which texts
/// EXPLAIN statements are answered, which explain the same answers.
pub fn told_files_have_one_run()
    ensures some { (words : List (List ℕ)) (held : List NamedFile)
        → (ran : Ran) × Runs words (Some held) ⊥ ran }
    ensures one { (words : List (List ℕ)) (held : List NamedFile) (a b : Ran)
        → Runs words (Some held) ⊥ a → Runs words (Some held) ⊥ b
        → IsUnbroken a → IsUnbroken b → SameRun a b }
{
    a_misspelling_has_one_break();
    bytes_are_one_script();
}
