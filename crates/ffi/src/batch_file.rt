// A file of records in bytes that the caller lends: started, added to, read step by step.
ghost use Rattle.batch.specs.Layout.{record_of};
ghost use Rattle.ffi.specs.BatchFile.{AddsWords, StartsWords, TellsStep, step_words};

use batch::{AddError, NoBatch, Step, add, record_at, start};
use encoding::slices::NoRoom;

// The version byte at the start of `file`, whose used bytes are then 1; 14 where there is no byte.
#[unsafe(no_mangle)]
pub extern "C" fn variant_batch_start(file: &mut [u8]) -> u8
    ensures { StartsWords result file.old file.new }
{
    match start(file) {
        Ok(()) => 0,
        Err(NoRoom) => 14,
    }
}

// The record behind the first `used` bytes of `file`, and `used` is then what it occupies with it; 1 where `used` exceeds the file, 21
// where these bytes are no batch, 14 where the record does not fit. A refused call leaves both.
#[unsafe(no_mangle)]
pub extern "C" fn variant_batch_add(
    file: &mut [u8],
    used: &mut usize,
    dictionary: &[u8],
    value: &[u8],
) -> u8
    ensures { AddsWords result (record_of dictionary.now value.now) file.old file.new
        used.old used.new }
{
    match add(file, *used, dictionary, value) {
        Ok(n) => {
            *used = n;
            0
        }
        Err(AddError::Damaged) => 1,
        Err(AddError::NoBatch) => 21,
        Err(AddError::NoRoom) => 14,
    }
}

// What stands at a place of `file`: 21 where it is no batch. Else 0, and `kind` is 0 for a whole record, whose dictionary lies from
// `dictionary` up to `value` and its value from there up to `next`, where the next record begins; 1 for a bad record, of which only `next` is
// told; 2 for the tail, of which only its byte count is, in `tail`. What is not told stays as it was.
#[unsafe(no_mangle)]
pub extern "C" fn variant_batch_record_at(
    file: &[u8],
    place: usize,
    kind: &mut u8,
    dictionary: &mut usize,
    value: &mut usize,
    next: &mut usize,
    tail: &mut usize,
) -> u8
    ensures { TellsStep result file.now place
        (step_words kind.old dictionary.old value.old next.old tail.old)
        (step_words kind.new dictionary.new value.new next.new tail.new) }
{
    match record_at(file, place) {
        Ok(
            Step::Whole {
                dictionary: d,
                value: v,
                next: n,
            },
        ) => {
            *kind = 0;
            *dictionary = d;
            *value = v;
            *next = n;
            0
        }
        Ok(Step::Bad(n)) => {
            *kind = 1;
            *next = n;
            0
        }
        Ok(Step::Tail(n)) => {
            *kind = 2;
            *tail = n;
            0
        }
        Err(NoBatch) => 21,
    }
}
