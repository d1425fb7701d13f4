//! Laws of the table. A caller learns them from the contract; the call does nothing.

ghost use Rattle.rw_sequents.specs.Table.{RoundsAreValid, GoodAreValid};

/// In a library that is well made lemmas are valid that are good by their certificates, as are those that they cite, and so on down the table.
pub fn good_lemmas()
    ensures rounds { RoundsAreValid }
    ensures valid { GoodAreValid }
{}
