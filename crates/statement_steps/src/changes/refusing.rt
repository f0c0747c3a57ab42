ghost use Rattle.std.specs.Prelude.{◌≡◌};
ghost use Rattle.statement_steps.specs.changes.Refused.{refused};

use name_meaning::{Break, Rule};
use perm_catalog::CatalogRefusal;
use statement_meaning::StepRefusal;

/// Why a statement at an offset isn't carried out whose change the catalog refuses.
pub(crate) fn refused(refusal: CatalogRefusal, at: usize) -> StepRefusal
    ensures { result ≡ refused at refusal }
{
    match refusal {
        CatalogRefusal::VersionsSpent => StepRefusal::Break(Break {
            rule: Rule::NumbersSpent,
            at,
        }),
        CatalogRefusal::NoMemory => StepRefusal::NoMemory,
    }
}
