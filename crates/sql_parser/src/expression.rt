//! The levels of expressions, each over the one below: connectives over predicates, predicates over sums, sums over primaries.

ghost use Rattle.std.specs.Prelude.{◌≡◌, ◌<◌, ◌≤◌, true, length, IfOk};
ghost use Rattle.sql_tree.specs.grammar.Cursors as spec;
ghost use Rattle.sql_tree.specs.grammar.Nests.{NestReads};
ghost use Rattle.sql_tree.specs.grammar.built.Pieces.{sees_pair};
ghost use Rattle.sql_tree.specs.grammar.Symbols as n;
ghost use Rattle.sql_tree.specs.grammar.Tables.{begins};
ghost use Rattle.sql_parser.specs.built.Literals.{ends};

use perm_values::Boxed;
use sql_levels::{Connectives, Predicates, Sums};
use sql_primaries::{LITERALS, Primaries, literal};
use sql_tree::{Cursor, ExprTree, Nest, QueryTree, Sort, Unread, node};

/// What ends an expression in a list or in parentheses.
const ENDS: [Sort; 2] = [Sort::Comma, Sort::Closing];

/// A literal that stands alone, as the expression that it is.
#[tactic(auto, using(crate::proofs::Literals::literal_alone))]
fn literal_alone(cursor: &mut Cursor<'_>) -> Result<Boxed<ExprTree>, Unread>
    requires { sees_pair (begins n.Literal) ends cursor.old ≡ true }
    ensures given { spec.Reads result (spec.reading n.Expr cursor.old) cursor.new }
    ensures fewer { IfOk result (λ _. length cursor.new < length cursor.old) }
{
    let at = cursor.offset();
    let body = literal(cursor)?;
    Ok(node(cursor.alloc(), at, body)?)
}

fn sum<
    F: Fn(&mut Cursor<'_>) -> Result<Boxed<ExprTree>, Unread> + Copy,
    G: Fn(&mut Cursor<'_>) -> Result<Boxed<QueryTree>, Unread> + Copy,
>(nest: &Nest<F, G>, cursor: &mut Cursor<'_>) -> Result<Boxed<ExprTree>, Unread>
    requires sound { NestReads nest.now F.pre G.pre F.post G.post }
    requires below { length cursor.old ≤ nest.now.most }
    ensures given { spec.Reads result (spec.reading n.Sum cursor.old) cursor.new }
    ensures fewer { IfOk result (λ _. length cursor.new < length cursor.old) }
{
    let primary = |cursor: &mut Cursor<'_>| Primaries { nest: *nest }.primary(cursor);
    let sums = Sums {
        primary,
        most: nest.most,
    };
    sums.sum(cursor)
}

fn test<
    F: Fn(&mut Cursor<'_>) -> Result<Boxed<ExprTree>, Unread> + Copy,
    G: Fn(&mut Cursor<'_>) -> Result<Boxed<QueryTree>, Unread> + Copy,
>(nest: &Nest<F, G>, cursor: &mut Cursor<'_>) -> Result<Boxed<ExprTree>, Unread>
    requires sound { NestReads nest.now F.pre G.pre F.post G.post }
    requires below { length cursor.old ≤ nest.now.most }
    ensures given { spec.Reads result (spec.reading n.Test cursor.old) cursor.new }
    ensures fewer { IfOk result (λ _. length cursor.new < length cursor.old) }
{
    let predicates = Predicates {
        sum: |cursor: &mut Cursor<'_>| sum(nest, cursor),
        nest: *nest,
    };
    predicates.test(cursor)
}

fn disjunction<
    F: Fn(&mut Cursor<'_>) -> Result<Boxed<ExprTree>, Unread> + Copy,
    G: Fn(&mut Cursor<'_>) -> Result<Boxed<QueryTree>, Unread> + Copy,
>(nest: &Nest<F, G>, cursor: &mut Cursor<'_>) -> Result<Boxed<ExprTree>, Unread>
    requires sound { NestReads nest.now F.pre G.pre F.post G.post }
    requires below { length cursor.old ≤ nest.now.most }
    ensures given { spec.Reads result (spec.reading n.Expr cursor.old) cursor.new }
    ensures fewer { IfOk result (λ _. length cursor.new < length cursor.old) }
{
    let connectives = Connectives {
        test: |cursor: &mut Cursor<'_>| test(nest, cursor),
        most: nest.most,
    };
    connectives.disjunction(cursor)
}

/// An expression. A literal that stands alone is read at once.
pub(crate) fn expression<
    F: Fn(&mut Cursor<'_>) -> Result<Boxed<ExprTree>, Unread> + Copy,
    G: Fn(&mut Cursor<'_>) -> Result<Boxed<QueryTree>, Unread> + Copy,
>(nest: &Nest<F, G>, cursor: &mut Cursor<'_>) -> Result<Boxed<ExprTree>, Unread>
    requires sound { NestReads nest.now F.pre G.pre F.post G.post }
    requires below { length cursor.old ≤ nest.now.most }
    ensures given { spec.Reads result (spec.reading n.Expr cursor.old) cursor.new }
    ensures fewer { IfOk result (λ _. length cursor.new < length cursor.old) }
{
    if cursor.sees_pair(&LITERALS, &ENDS) {
        literal_alone(cursor)
    } else {
        disjunction(nest, cursor)
    }
}
