//! What a text has to be to say what an answer means.
//! Each law is the contract of a function that does nothing.
ghost use Rattle.std.specs.Prelude.{ℕ, List};
ghost use Rattle.bag_algebra.specs.declared.query.Answer.{Answer};
ghost use Rattle.perm_catalog.specs.Contents.{Contents};
ghost use Rattle.statement_meaning.specs.explains.Explains.{Explains, MeansTheSame};

/// A text that explains an answer explains each one that means the same.
pub fn a_text_explains_all_that_means_the_same()
    ensures { (c : Contents) (answer other : Answer) (text : List ℕ) → MeansTheSame c other answer
        → Explains c answer text → Explains c other text }
{}

/// All answers that a text explains mean the same.
pub fn a_text_explains_one_meaning()
    ensures { (c : Contents) (answer other : Answer) (text : List ℕ) → Explains c answer text
        → Explains c other text → MeansTheSame c answer other }
{}
