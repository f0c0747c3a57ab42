ghost use Rattle.std.specs.Prelude.{◌≡◌, IfOk};
ghost use Rattle.statement_meaning.specs.Turns.{freshness_text, stored_at};
ghost use Rattle.statement_steps.specs.Fresh.{state_text};

use crate::changes::text_of;
use perm_catalog::Catalog;
use perm_values::{Bytes, Chars, NoMemory};
use std::alloc::Global;
use stored_provenance::{FreshState, freshness};

/// SHOW FRESH, of the table of this name. It fails only for want of memory.
pub fn show_fresh(alloc: Global, catalog: &Catalog, name: &Chars) -> Result<Bytes, NoMemory>
    ensures { IfOk result (λ text. text
        ≡ freshness_text catalog.now (stored_at catalog.now name.now)) }
{
    match freshness(alloc, catalog, name)? {
        Some(state) => state_text(alloc, &state),
        None => text_of(alloc, b"not stored\n"),
    }
}

fn state_text(alloc: Global, state: &FreshState) -> Result<Bytes, NoMemory>
    ensures { IfOk result (λ text. text ≡ state_text state.now) }
{
    match state {
        FreshState::Fresh => text_of(alloc, b"fresh\n"),
        FreshState::Stale { first } => {
            let mut text = text_of(alloc, b"stale ")?;
            text.add(first.bytes())?;
            text.add(b"\n")?;
            Ok(text)
        }
    }
}
