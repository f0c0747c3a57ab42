ghost use Rattle.std.specs.Prelude.{◌≡◌, ℕ, List};
ghost use Rattle.sql_tree.specs.declared.statement.Script.{Script};
ghost use Rattle.perm_engine.specs.meaning.Scripts.{IsScriptOf, IsMisspelled};
ghost use Rattle.name_meaning.specs.declared.answer.Break.{Break};

use sql_lexer::lexing_is_unique;
use sql_parser::{a_script_has_one_tree, an_unexpected_token_has_no_tree};

/// Bytes are one script, and a script isn't misspelled.
pub fn bytes_are_one_script()
    ensures one_script { (bytes : List ℕ) (a b : Script) → IsScriptOf bytes a → IsScriptOf bytes b → a ≡ b }
    ensures not_both { (bytes : List ℕ) (script : Script) (b : Break)
        → IsScriptOf bytes script → IsMisspelled bytes b → ⊥ }
{
    lexing_is_unique();
    a_script_has_one_tree();
    an_unexpected_token_has_no_tree();
}
