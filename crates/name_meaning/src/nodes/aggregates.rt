//! Aggregates, which stand behind the groups in the rows of a grouped core.
ghost use Rattle.std.specs.Prelude.{◌≡◌, ℕ, Bool, ◌<◌, ◌^◌, Some, IfOk, IsOkAnd};
ghost use Rattle.perm_values.specs.declared.kind.Kind.{Kind};
ghost use Rattle.name_meaning.specs.Meanings.{Surroundings};
ghost use Rattle.name_meaning.specs.Scopes.{group_count};
ghost use Rattle.name_meaning.specs.Sublinks.{aggregate_made, argument_wanted, function_of, rows_counted};
ghost use Rattle.name_meaning.specs.nodes.Makes.{before_of, IsBuilt, Makes};

use crate::kinds::aggregate_kind;
use crate::nodes::within::Within;
use bag_algebra::{AggFn, Aggr, Expr};
use perm_values::{Kind, NoMemory};
use sql_tree::AggWord;

fn function_of(word: AggWord) -> AggFn
    ensures { result ≡ function_of word }
{
    match word {
        AggWord::CountRows => AggFn::CountRows,
        AggWord::Count => AggFn::Count,
        AggWord::CountDistinct => AggFn::CountDistinct,
        AggWord::Sum => AggFn::Sum,
        AggWord::Min => AggFn::Min,
        AggWord::Max => AggFn::Max,
    }
}

/// The kind that an argument of any kind takes.
pub fn argument_wanted(word: AggWord) -> Kind
    ensures { result ≡ argument_wanted word }
{
    match word {
        AggWord::CountRows => Kind::Text,
        AggWord::Count => Kind::Text,
        AggWord::CountDistinct => Kind::Text,
        AggWord::Sum => Kind::Integer,
        AggWord::Min => Kind::Text,
        AggWord::Max => Kind::Text,
    }
}

/// An aggregate behind those found so far.
fn add_aggregate(
    groups: usize,
    word: AggWord,
    argument_kind: Option<Kind>,
    argument: Option<Expr>,
    found: &mut Within,
) -> Result<Expr, NoMemory>
    requires { groups < 2 ^ 63 }
    ensures { (here : Surroundings) → group_count here.scopes ≡ groups → IfOk result (λ made.
        IsBuilt (aggregate_made here word argument_kind argument (before_of found.old)) made
        found.old found.new) }
{
    let place = groups + found.aggregates.len();
    let function = function_of(word);
    let kind = aggregate_kind(word, argument_kind);
    found.aggregates.push(Aggr {
        function,
        argument,
        kind,
    })?;
    Ok(Expr::Col { level: 0, place })
}

/// An aggregate of an argument, behind those found so far.
pub fn aggregate_of(
    groups: usize,
    word: AggWord,
    kind: Option<Kind>,
    argument: Result<Expr, NoMemory>,
    found: &mut Within,
) -> Result<Expr, NoMemory>
    requires { groups < 2 ^ 63 }
    ensures { (here : Surroundings) → group_count here.scopes ≡ groups
        → IfOk result (λ made. IsOkAnd argument (λ argument.
        IsBuilt (aggregate_made here word kind (Some argument) (before_of found.old)) made
        found.old found.new)) }
{
    let argument = argument?;
    add_aggregate(groups, word, kind, Some(argument), found)
}

/// An aggregate without an argument, behind those found so far.
pub fn count_made(groups: usize, word: AggWord, found: &mut Within) -> Result<Expr, NoMemory>
    requires { groups < 2 ^ 63 }
    ensures { (here : Surroundings) → group_count here.scopes ≡ groups
        → IfOk result (λ e. (may_link : Bool) (at : ℕ) (wanted : Kind)
        → Makes may_link (rows_counted here at word) wanted e found.old found.new) }
{
    add_aggregate(groups, word, None, None, found)
}
