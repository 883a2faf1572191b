//! Permitters: a job asks one for permits.
//!
//! A permitter knows the bulkheads with an id below some number. It answers yes or no for an id,
//! and takes back each permit that it granted. Contracts see what it has answered, so a run can
//! only name answers that were really given.

ghost use Rattle.std.specs.Prelude.{ℕ, ◌≡◌, ◌<◌, ◌++◌, ◌∷◌, [], List};
ghost use Rattle.resil_decor.specs.Permitter.{PermitterAnswers, IsAnswered, IsHeldAfter, IsGivenBack};

/// One question to a permitter, with its answer.
///
/// ```
/// let refused = run.asked().iter().filter(|asked| !asked.granted).count();
/// ```
#[derive(Clone, Copy, Debug, PartialEq, Eq)]
pub struct Asked {
    /// The bulkhead asked for a permit.
    pub id: u16,
    /// Whether it granted a permit.
    pub granted: bool,
}

/// Grants permits of bulkheads by their ids, and takes them back (Resilience4j user guide,
/// Bulkhead).
///
/// ```
/// fn outcome<P: Permitter>(job: Job, permitter: &mut P) -> Outcome {
///     job.run(permitter).outcome()
/// }
/// ```
pub trait Permitter {
    ghost use Rattle.resil_decor.specs.declared.permitter.Asked.{Asked};

    /// The known ids, and the answers so far.
    ghost answers: { Self → PermitterAnswers };

    /// How many permits of each id are held.
    ghost held: { Self → ℕ → ℕ };

    /// What is known of two values of a permitter if these answers were given in between, one after
    /// the other. A permitter that answers from a list says that they are its next ones.
    ghost AnsweredBetween: { Self → List Asked → Self → Type 0 };

    /// Returns whether a permit of this bulkhead is granted. The answer for an unknown id is no.
    fn enter(&mut self, id: u16) -> bool
        ensures answered { IsAnswered (answers self.old) (record { id = id; granted = result }) (answers self.new) }
        ensures held { IsHeldAfter (held self.old) (record { id = id; granted = result }) (held self.new) }
        ensures given { AnsweredBetween self.old (record { id = id; granted = result } ∷ []) self.new };

    /// Gives back a held permit of this bulkhead.
    fn leave(&mut self, id: u16)
        requires { 0 < held self.old id }
        ensures answered { answers self.new ≡ answers self.old }
        ensures held { IsGivenBack (held self.old) id (held self.new) }
        ensures given { AnsweredBetween self.old [] self.new };

    /// No answers were given between a value and itself.
    ghost none_between: { (x : Self) → AnsweredBetween x [] x };

    /// Answers given after others: all of them were given, one after the other.
    ghost append_between: { (x y z : Self) (front back : List Asked) → AnsweredBetween x front y → AnsweredBetween y back z → AnsweredBetween x (front ++ back) z };
}
