//! Laws of intakes. Each is the contract of a public function that does nothing.
ghost use Rattle.vault_files.specs.Again.{IdsAreAnsweredAgain, NothingIsAdmittedAgain};

/// A list that was taken in may be given again by the same caller, with the same files, at a reading before
/// neither the first one nor the last moment, where nothing but versions were removed since. Each row that
/// had an id is answered by that id, up to a stop. Where the first intake came to its end and no row met a
/// clock that went back, the second one changes nothing.
pub fn lists_may_be_given_again()
    ensures ids { IdsAreAnsweredAgain }
    ensures nothing { NothingIsAdmittedAgain }
{}
