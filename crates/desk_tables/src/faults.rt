//! The store's error for each error of a row call.
ghost use Rattle.std.specs.Prelude.{◌≡◌};
ghost use Rattle.desk_tables.specs.steps.Faults.{store_fault};

use desk_rows::RowFault;
use desk_store::StoreFault;

pub(crate) fn store_fault(fault: RowFault) -> StoreFault
    ensures { result ≡ store_fault fault }
{
    match fault {
        RowFault::Memory => StoreFault::Memory,
        RowFault::Disk => StoreFault::Disk,
        RowFault::Size => StoreFault::Size,
        RowFault::Row | RowFault::Refused => StoreFault::NotADesk,
    }
}
