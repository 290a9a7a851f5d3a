//! Whether a vault's files are still those that were opened.
ghost use Rattle.std.specs.Prelude.{Bool};

/// What sees whether a vault's files are still those that were opened.
pub trait Watch {
    /// What a look at them may have found: whether they are.
    ghost saw: { Self → Bool → Type 0 };

    /// That it was reported that they aren't.
    ghost warned: { Self → Type 0 };

    /// Whether they are.
    fn are_in_place(&self) -> bool
        ensures { saw self.now result };

    /// Reports that they aren't.
    fn report(&self)
        ensures { warned self.now };
}
