ghost use Rattle.std.specs.Prelude.{◌≡◌, ◌<◌, ◌-◌, ◌^◌, List, length};
ghost use Rattle.perm_catalog.specs.Changes.{nothing_held};
ghost use Rattle.sql_tree.specs.declared.statement.Statement.{Statement};
ghost use Rattle.perm_engine.specs.meaning.Run.{StopsAt};
ghost use Rattle.name_meaning.specs.declared.answer.Break.{Break};
ghost use Rattle.name_meaning.specs.declared.rule.Rule.TheVariants.{NumbersSpent};

/// A run of fewer than 2^64 - 2 statements never wants the last number, since it draws 1 first and no more than one a
/// statement.
pub fn a_run_has_numbers_left()
    ensures { (statements : List Statement) (b : Break) → length statements < 2 ^ 64 - 2
        → StopsAt (nothing_held 1) statements b → b.rule ≡ NumbersSpent → ⊥ }
{}
