//! What a fault of the database is to the store.
ghost use Rattle.std.specs.Prelude.{◌≡◌, ◌<◌, ◌^◌, ◌-◌};
ghost use Rattle.society_tables.specs.Faults.{Told, store_fault};

use society_core::StoreFault;
use society_rows::RowFault;

/// Want of memory, or else that the medium failed.
pub(crate) fn store_fault(fault: RowFault) -> StoreFault
    ensures { result ≡ store_fault fault }
{
    match fault {
        RowFault::Memory => StoreFault::Memory,
        _ => StoreFault::Refused,
    }
}

/// An answer of the database as the store's; a fault of the medium is counted.
pub(crate) fn store_answer<T>(
    failures: &mut u64,
    answer: Result<T, RowFault>,
) -> Result<T, StoreFault>
    requires { failures.old < 2 ^ 64 - 1 }
    ensures { Told answer result failures.old failures.new }
{
    match answer {
        Ok(found) => Ok(found),
        Err(RowFault::Memory) => Err(StoreFault::Memory),
        Err(fault) => {
            *failures += 1;
            Err(store_fault(fault))
        }
    }
}
