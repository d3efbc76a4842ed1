// A file started, and a record added behind the used bytes of one. A file may be longer than 4,294,967,295 bytes: only a record's count is
// held to four bytes.
ghost use Rattle.std.specs.Prelude.{◌≡◌, ◌+◌, ◌≤◌, ◌<◌, ◌^◌, length, MatchOption};
ghost use Rattle.batch.specs.Layout.{record_of, record_bytes};
ghost use Rattle.batch.specs.Writing.{Adds, Starts};

use crate::{AddError, check_version};
use encoding::slices::{NoRoom, put_slice};

// An empty batch: the version byte.
pub fn start(file: &mut [u8]) -> Result<(), NoRoom>
    ensures { Starts file.old result file.new }
{
    if file.is_empty() {
        return Err(NoRoom);
    }
    file[0] = 1;
    Ok(())
}

// The record behind the first `used` bytes of the buffer. Of these only the version is looked at.
// Kept (6; C interface): the buffer and its used count come from the C call, which gets the new count.
pub fn add(file: &mut [u8], used: usize, dictionary: &[u8], value: &[u8]) -> Result<usize, AddError>
    ensures { Adds file.old used (record_of dictionary.now value.now) result file.new }
{
    if file.len() < used {
        return Err(AddError::Damaged);
    }
    check_version(&file[..used])?;
    let count = count_of(dictionary.len(), value.len()).ok_or(AddError::NoRoom)?;
    let size = 4 + count as usize;
    if file.len() - used < size {
        return Err(AddError::NoRoom);
    }
    let end = used + size;
    write_record(&mut file[used..end], dictionary, value);
    Ok(end)
}

// The count of a record, where it goes into four bytes.
fn count_of(dictionary: usize, value: usize) -> Option<u32>
    ensures { MatchOption result (256 ^ 4 ≤ 4 + (dictionary + value)) (λ n. n ≡ 4 + (dictionary + value)) }
{
    let sizes = dictionary.checked_add(value)?;
    u32::try_from(sizes.checked_add(4)?).ok()
}

// A record into just the part that it fills.
fn write_record(part: &mut [u8], dictionary: &[u8], value: &[u8])
    requires counted { 4 + (length dictionary.now + length value.now) < 256 ^ 4 }
    requires filled { length part.old ≡ 8 + (length dictionary.now + length value.now) }
    ensures { part.new ≡ record_bytes (record_of dictionary.now value.now) }
{
    let size = dictionary.len();
    let count = 4 + (size + value.len());
    part[..4].copy_from_slice(&(count as u32).to_be_bytes());
    part[4..8].copy_from_slice(&(size as u32).to_be_bytes());
    put_slice(part, 8, dictionary);
    put_slice(part, 8 + size, value);
}
