//! What rows in an order are, by the registry's facts.
ghost use Rattle.desk_rows.specs.order.Listed.{ListedRowsTell};

/// The names of all senders, owners or gateways, ordered by their octets, are the registry's list of them; and so are the DevEUIs of all
/// devices, the gateways of an uplink's receptions, and the numbers of a device's uplinks and of a gateway's bookings in a range of time.
pub fn listed_rows_tell()
    ensures { ListedRowsTell }
{}
