//! What look-ups in the rows return, by the registry's facts.
ghost use Rattle.desk_rows.specs.order.Arranged.{ArrangedRowsTell, OrdersHold};
ghost use Rattle.desk_rows.specs.order.LookUps.{LookUpsTell};

/// The stored counters, the first of the rows in falling order, and the rows with a number or with a key are what the registry's
/// definitions give for the facts.
pub fn look_ups_tell()
    ensures { LookUpsTell }
{}

/// Rows that pass a test, ordered by start, are the registry's lists in that order; and the first device ordered by DevEUI is the next one
/// of its owner.
pub fn arranged_rows_tell()
    ensures { ArrangedRowsTell }
{}

/// An order by start and then by number sorts rows by start; one by the octets of DevEUIs sorts them by DevEUI; and one by a key that
/// falls, and then by anything, has falling keys.
#[tactic(auto, using(crate::proofs::OrderLemmas::Orders::orders_hold))]
pub fn orders_hold()
    ensures { OrdersHold }
{}
