// Whole files.
ghost use Rattle.std.specs.Prelude.{◌≡◌, ℕ, ◌+◌, ◌<◌, ◌≤◌, ◌^◌, List, length, take, IfOk, IfSome, Some};
ghost use Rattle.link_io.specs.Outside.{Rose, HasNext};

use crate::files::Files;
use std::alloc::Global;

/// Why a file wasn't read.
#[derive(Clone, Copy, Debug, PartialEq, Eq)]
pub enum ReadFault {
    /// A call of the files failed.
    Failed,
    /// Memory was wanting.
    Memory,
}

/// The bytes of a file, or the first `limit + 1` of them where it has more.
pub fn read_file<F: Files>(
    alloc: Global,
    files: &mut F,
    name: &str,
    limit: u64,
) -> Result<Vec<u8>, ReadFault>
    requires { limit + 1 < 2 ^ 63 }
    ensures read { IfSome (F.holds files.old name.now)
        (λ told. IfOk result
        (λ bytes. (all : List ℕ) × (told ≡ Some all) × (bytes.items ≡ take (limit + 1) all))) }
    ensures short { IfOk result (λ bytes. length bytes.items ≤ limit + 1) }
    ensures same { (other : List ℕ) → F.holds files.new other ≡ F.holds files.old other }
    ensures later { F.faults files.old ≤ F.faults files.new }
    ensures failed { result ≡ Err ReadFault.Failed
        → Rose (F.faults files.old) (F.faults files.new) }
{
    let mut bytes = Vec::new(alloc);
    let mut buffer = [0; PIECE];
    while bytes.len() as u64 <= limit {
        let room = limit + 1 - bytes.len() as u64;
        let size = room.min(PIECE as u64) as usize;
        match read_piece(files, name, &mut bytes, &mut buffer[..size]) {
            Ok(0) => return Ok(bytes),
            Ok(_) => {}
            Err(why) => return Err(why),
        }
    }
    Ok(bytes)
}

// How many bytes one call of the files is asked for, at most.
const PIECE: usize = 8192;

// Appends what the file has after the bytes, as much as one call gives, and answers how much. It is 0 only at the file's end.
fn read_piece<F: Files>(
    files: &mut F,
    name: &str,
    bytes: &mut Vec<u8>,
    buffer: &mut [u8],
) -> Result<usize, ReadFault>
    requires { 0 < length buffer.old }
    ensures read { IfSome (F.holds files.old name.now)
        (λ told. IfOk result
        (λ count. (all : List ℕ) × (told ≡ Some all)
        × HasNext all bytes.old.items bytes.new.items count)) }
    ensures grown { IfOk result (λ count. length bytes.new.items ≡ length bytes.old.items + count) }
    ensures within { IfOk result (λ count. count ≤ length buffer.old) }
    ensures same { (other : List ℕ) → F.holds files.new other ≡ F.holds files.old other }
    ensures later { F.faults files.old ≤ F.faults files.new }
    ensures failed { result ≡ Err ReadFault.Failed
        → Rose (F.faults files.old) (F.faults files.new) }
{
    let Ok(count) = files.read_at(name, bytes.len() as u64, buffer) else {
        return Err(ReadFault::Failed);
    };
    match bytes.extend_from_slice(&buffer[..count]) {
        Ok(()) => Ok(count),
        Err(_) => Err(ReadFault::Memory),
    }
}
