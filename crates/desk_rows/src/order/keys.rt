//! What each effect finds in the rows.
ghost use Rattle.desk_rows.specs.order.Keys.{ChangedRowsAreThere, KeysAreFree};

/// If an effect fits and there is space for one more message, the key of each row that it adds is free, and so is a rowid.
#[tactic(auto, using(crate::proofs::OrderLemmas::Free::keys_are_free))]
pub fn keys_are_free()
    ensures { KeysAreFree }
{}

/// If an effect fits, each row that it changes is there, once.
#[tactic(auto, using(crate::proofs::OrderLemmas::There::changed_rows_are_there))]
pub fn changed_rows_are_there()
    ensures { ChangedRowsAreThere }
{}
