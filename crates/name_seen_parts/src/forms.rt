ghost use Rattle.std.specs.Prelude.{◌≡◌, false};
ghost use Rattle.std.specs.Option.{option_map_or};
ghost use Rattle.perm_values.specs.declared.kind.Kind.TheVariants.{Boolean};
ghost use Rattle.name_meaning.specs.Froms.{condition_breaks};
ghost use Rattle.name_meaning.specs.Meanings.{Surroundings, Meant, is_same_kind};
ghost use Rattle.name_meaning.specs.Sublinks.{column_meant, takes_kind, aggregate_kind, rows_counted, aggregated};
ghost use Rattle.name_seen_parts.specs.Seen.{first_or, seen, IsSeenAs};

use crate::kinds::{is_same_kind, unites};
use name_meaning::{Break, Found, Rule, aggregate_kind};
use perm_values::Kind;
use sql_tree::AggWord;

/// The kind of the column that a reference at this offset means, or why it is none: it means no column or two, one that
/// is not grouped, or from the argument of an aggregate one of an outer scope.
pub fn column_kind(argument: bool, at: usize, found: Found) -> Result<Option<Kind>, Break>
    ensures { (here : Surroundings) → here.argument ≡ argument → result ≡ seen (column_meant here at found) }
{
    match found {
        Found::Absent => Err(Break {
            rule: Rule::UnknownColumn,
            at,
        }),
        Found::Ambiguous => Err(Break {
            rule: Rule::AmbiguousColumn,
            at,
        }),
        Found::Column(column) => match column.place {
            None => Err(Break {
                rule: Rule::UngroupedColumn,
                at,
            }),
            Some(_) => {
                if argument && column.level > 0 {
                    return Err(Break {
                        rule: Rule::MisplacedAggregate,
                        at,
                    });
                }
                Ok(Some(column.kind))
            }
        },
    }
}

/// Whether the argument may be of this kind.
fn takes_kind(word: AggWord, argument: Option<Kind>) -> bool
    ensures { result ≡ takes_kind word argument }
{
    match word {
        AggWord::CountRows => true,
        AggWord::Count => true,
        AggWord::CountDistinct => true,
        AggWord::Sum => unites(Some(Kind::Integer), argument),
        AggWord::Min => !is_boolean(argument),
        AggWord::Max => !is_boolean(argument),
    }
}

fn is_boolean(kind: Option<Kind>) -> bool
    ensures { result ≡ option_map_or (is_same_kind Boolean) kind false }
{
    match kind {
        None => false,
        Some(kind) => is_same_kind(Kind::Boolean, kind),
    }
}

/// The kind of `COUNT(*)`, or that no aggregate stands here.
pub fn count_kind(allowed: bool, at: usize, word: AggWord) -> Result<Option<Kind>, Break>
    ensures { (here : Surroundings) → here.aggregates ≡ allowed → result ≡ seen (rows_counted here at word) }
{
    if !allowed {
        return Err(Break {
            rule: Rule::MisplacedAggregate,
            at,
        });
    }
    Ok(Some(aggregate_kind(word, None)))
}

/// The kind of an aggregate at this offset, whose argument breaks nothing and is of this kind; or that no aggregate
/// stands here, or takes such an argument.
pub fn aggregated_kind(
    allowed: bool,
    at: usize,
    word: AggWord,
    argument_at: usize,
    argument: Option<Kind>,
) -> Result<Option<Kind>, Break>
    ensures { (here : Surroundings) (meant : Meant) → here.aggregates ≡ allowed → IsSeenAs argument meant
        → result ≡ seen (aggregated here at word argument_at meant) }
{
    if !allowed {
        return Err(Break {
            rule: Rule::MisplacedAggregate,
            at,
        });
    }
    if !takes_kind(word, argument) {
        return Err(Break {
            rule: Rule::UnfitKind,
            at: argument_at,
        });
    }
    Ok(Some(aggregate_kind(word, argument)))
}

/// That a condition at this offset, which breaks nothing, is of this kind and no truth value.
pub fn condition_kind(at: usize, kind: Option<Kind>) -> Result<(), Break>
    ensures { (meant : Meant) → IsSeenAs kind meant → result ≡ first_or (condition_breaks at meant) tt }
{
    if !unites(Some(Kind::Boolean), kind) {
        return Err(Break {
            rule: Rule::UnfitKind,
            at,
        });
    }
    Ok(())
}
