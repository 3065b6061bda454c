//! UUIDs and MAC addresses.
#![tactic(auto, using(crate::proofs::ReadingSteps::reads_into))]

ghost use Rattle.pg_base.specs.FixedBytes.{FormFixedBytes};
ghost use Rattle.pg_base.specs.Formats.{Decodes};
ghost use Rattle.pg_base.specs.Numbers.{first_fault_number};
ghost use Rattle.pg_cells_c.specs.Readings.{ReadsInto};
ghost use Rattle.pg_cells_c.specs.Writings.{WritesInto};
ghost use Rattle.pg_types.specs.Faults.{Answers, NeverMemory};

use crate::buffers::write;
use crate::store::store;
use pg_base::protocol::{macaddr_from_sql, uuid_from_sql};
use pg_types::fault::Fault;

/// The bytes of a UUID.
#[derive(Clone, Copy)]
#[repr(C)]
pub struct Uuid {
    pub bytes: [u8; 16],
}

/// The bytes of a MAC address.
#[derive(Clone, Copy)]
#[repr(C)]
pub struct Macaddr {
    pub bytes: [u8; 6],
}

/// Reads the UUID of a cell.
fn uuid_in(cell: &[u8]) -> Result<Uuid, Fault>
    ensures outcome { Answers (Decodes (λ b v. FormFixedBytes 16 b v.bytes) (first_fault_number 16) cell.now) result }
    ensures never_memory { NeverMemory result }
{
    Ok(Uuid {
        bytes: uuid_from_sql(cell)?,
    })
}

/// Reads the MAC address of a cell.
fn macaddr_in(cell: &[u8]) -> Result<Macaddr, Fault>
    ensures outcome { Answers (Decodes (λ b v. FormFixedBytes 6 b v.bytes) (first_fault_number 6) cell.now) result }
    ensures never_memory { NeverMemory result }
{
    Ok(Macaddr {
        bytes: macaddr_from_sql(cell)?,
    })
}

/// Reads UUID (`uuid_recv`).
#[unsafe(no_mangle)]
pub extern "C" fn pgc_uuid_read(cell: &[u8], uuid: &mut Uuid) -> u32
    ensures { ReadsInto (Decodes (λ b v. FormFixedBytes 16 b v.bytes) (first_fault_number 16) cell.now)
        uuid.old uuid.new result }
{
    store(uuid_in(cell), uuid)
}

/// Writes UUID (`uuid_send`).
#[unsafe(no_mangle)]
pub extern "C" fn pgc_uuid_write(uuid: &Uuid, out: &mut [u8]) -> usize
    ensures { WritesInto uuid.now.bytes out.old out.new result }
{
    write(&uuid.bytes, out)
}

/// Reads MACADDR (`macaddr_recv`).
#[unsafe(no_mangle)]
pub extern "C" fn pgc_macaddr_read(cell: &[u8], macaddr: &mut Macaddr) -> u32
    ensures { ReadsInto (Decodes (λ b v. FormFixedBytes 6 b v.bytes) (first_fault_number 6) cell.now)
        macaddr.old macaddr.new result }
{
    store(macaddr_in(cell), macaddr)
}

/// Writes MACADDR (`macaddr_send`).
#[unsafe(no_mangle)]
pub extern "C" fn pgc_macaddr_write(macaddr: &Macaddr, out: &mut [u8]) -> usize
    ensures { WritesInto macaddr.now.bytes out.old out.new result }
{
    write(&macaddr.bytes, out)
}
