//! Each law is the contract of a function that does nothing.
ghost use Rattle.std.specs.Prelude.{◌≡◌, ◌++◌, ◌&&◌, List};
ghost use Rattle.bag_algebra.specs.Bags.{Row};
ghost use Rattle.bag_algebra.specs.Kinds.{kinds_of, width_of};
ghost use Rattle.bag_algebra.specs.Meaning.{Database, meaning};
ghost use Rattle.bag_algebra.specs.Outcome.{Bad, Faults};
ghost use Rattle.bag_algebra.specs.Rewriting.{SameRows, is_plain};
ghost use Rattle.bag_algebra.specs.TablesRead.{ReadsAmong};
ghost use Rattle.bag_algebra.specs.WellFormed.{WellFormed};
ghost use Rattle.bag_algebra.specs.declared.query.JoinKind.{JoinKind};
ghost use Rattle.bag_algebra.specs.declared.query.Query.{Query};
ghost use Rattle.bag_algebra.specs.built.Patterns.{ApplyOf};
ghost use Rattle.contribution.specs.Fitting.{Fitting};
ghost use Rattle.perm_values.specs.declared.kind.Kind.{Kind};
ghost use Rattle.query_laws.specs.spines.Spines.{IsSpine, Suits, spine_join};
ghost use Rattle.query_laws.specs.declared.spines.spine.Spine.{Spine};

/// A dependent join whose right side is a spine beside the left rows has the rows and the faults of the ordinary join of the left
/// query with the spine's base on its test, of which the items are taken; where left rows without partner are kept, the items have to
/// be columns of the base. This join has the same columns, is plain where both sides are, is well formed where the dependent one is,
/// and reads tables of the two sides alone.
pub fn dependent_joins_over_spines_are_joins()
    ensures rows { (kind : JoinKind) (left right : Query) (spine : Spine) (outer : List (List Kind))
        (db : Database) (env : List Row) →
        IsSpine (width_of left) right spine → Suits kind (width_of left) spine.items →
        Fitting outer (ApplyOf kind left right) db env →
        SameRows (meaning (ApplyOf kind left right) db env) (meaning (spine_join kind left spine) db env) }
    ensures faults { (kind : JoinKind) (left right : Query) (spine : Spine) (db : Database)
        (env : List Row) (faults : Faults) →
        IsSpine (width_of left) right spine → meaning left db env ≡ Bad faults →
        meaning (spine_join kind left spine) db env ≡ Bad faults }
    ensures kinds { (kind : JoinKind) (left right : Query) (spine : Spine) →
        IsSpine (width_of left) right spine →
        kinds_of (spine_join kind left spine) ≡ kinds_of left ++ kinds_of right }
    ensures formed { (kind : JoinKind) (left right : Query) (spine : Spine) (outer : List (List Kind)) →
        IsSpine (width_of left) right spine → WellFormed outer (ApplyOf kind left right) →
        WellFormed outer (spine_join kind left spine) }
    ensures plain { (kind : JoinKind) (left right : Query) (spine : Spine) →
        IsSpine (width_of left) right spine →
        is_plain (spine_join kind left spine) ≡ (is_plain left && is_plain right) }
    ensures tables { (kind : JoinKind) (left right : Query) (spine : Spine) →
        IsSpine (width_of left) right spine →
        ReadsAmong (spine_join kind left spine) (ApplyOf kind left right) }
{}
