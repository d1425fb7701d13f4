//! Laws of the table. A caller learns each from the contract; the calls do nothing.

ghost use Rattle.rw_lemmas.specs.Sound.{GoodIsValid, NoneReachesItself};

/// In a table that is well made the lemmas are valid that are good and cite such lemmas alone.
pub fn good_lemmas()
    ensures { GoodIsValid }
{}

/// In a library that is well made no definition is reached from its own body.
pub fn no_definition_reaches_itself()
    ensures { NoneReachesItself }
{}
