ghost use Rattle.std.specs.Prelude.{◌≡◌, ◌<◌, ◌≤◌, ◌+◌};
ghost use Rattle.sql_parser.specs.Nesting as spec;

use perm_values::List;
use sql_lexer::Token;
use sql_tree::{Sort, same_sort, sort_of};

/// How many parentheses and CASEs may be open at once.
const LIMIT: u64 = 64;

/// How many are open behind a token of this sort, where some are before it.
fn after(opening: Sort, closing: Sort, sort: Sort, open_now: u64) -> u64
    requires { open_now ≤ 64 }
    ensures value { result ≡ spec.after opening closing sort open_now }
    ensures one_more { result ≤ open_now + 1 }
{
    if same_sort(sort, opening) {
        open_now + 1
    } else if same_sort(sort, closing) {
        open_now.saturating_sub(1)
    } else {
        open_now
    }
}

/// The offset of the first parenthesis or CASE that is open together with 64 others. It takes no memory.
pub fn too_deep(tokens: &List<Token<'_>>) -> Option<usize>
    ensures { result ≡ spec.too_deep tokens.now }
{
    let mut parentheses = 0;
    let mut cases = 0;
    for token in tokens.as_slice() {
        let sort = sort_of(token);
        parentheses = after(Sort::Opening, Sort::Closing, sort, parentheses);
        cases = after(Sort::Case, Sort::End, sort, cases);
        if parentheses + cases > LIMIT {
            return Some(token.start());
        }
    }
    None
}
