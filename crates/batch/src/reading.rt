// What stands at a place of a file, and the parts of it that a whole record occupies.
ghost use Rattle.std.specs.Prelude.{◌≡◌, false, true, ◌≤◌, ◌<◌, drop, length, take, MatchOption};
ghost use Rattle.batch.specs.Layout.{big_number};
ghost use Rattle.batch.specs.Reading.{body_of, dictionary_in, is_whole, present, step_at, step_from, value_in};

use crate::{NoBatch, Step, check_version};

// One step of reading. A place below 1 counts as 1; past the end there is a tail of no bytes.
// Kept (6; no plainer): the places that a step names are counted from the file's start, so the file goes with the place.
pub fn record_at(file: &[u8], place: usize) -> Result<Step, NoBatch>
    ensures { result ≡ step_at file.now place }
{
    check_version(file)?;
    Ok(record_from(file, place.max(1)))
}

// The dictionary and the value of the whole record at a place, if one stands there: the parts of the file that they occupy.
// Kept (6; no plainer): a place as `record_at` takes it.
pub fn parts_at(file: &[u8], place: usize) -> Option<(&[u8], &[u8])>
    ensures { let step = step_at file.now place in
        MatchOption result (is_whole step ≡ false)
        (λ parts. (is_whole step ≡ true) × (parts.0.now ≡ dictionary_in file.now step) × (parts.1.now ≡ value_in file.now step)) }
{
    match record_at(file, place) {
        Ok(
            Step::Whole {
                dictionary,
                value,
                next,
            },
        ) => Some((&file[dictionary..value], &file[value..next])),
        _ => None,
    }
}

// The dictionary of the whole record at a place, as the part of the file that it occupies; no bytes where there is none.
// Kept (1d, 6; no plainer): a place as `record_at` takes it; where there is none the definition says no bytes.
#[tactic(auto, using(crate::proofs::ReadingLaws::no_dictionary))]
pub fn dictionary_at(file: &[u8], place: usize) -> &[u8]
    ensures { result.now ≡ dictionary_in file.now (step_at file.now place) }
{
    match parts_at(file, place) {
        Some((dictionary, _)) => dictionary,
        None => &[],
    }
}

// The same for its value.
// Kept (1d, 2, 6; no plainer): as `dictionary_at`, of the record's other part.
#[tactic(auto, using(crate::proofs::ReadingLaws::no_value))]
pub fn value_at(file: &[u8], place: usize) -> &[u8]
    ensures { result.now ≡ value_in file.now (step_at file.now place) }
{
    match parts_at(file, place) {
        Some((_, value)) => value,
        None => &[],
    }
}

// Kept (6; no plainer): a place of the file, as in `record_at`.
fn record_from(file: &[u8], at: usize) -> Step
    ensures { result ≡ step_from file.now at }
{
    let left = &file[at.min(file.len())..];
    let Some(body) = body_of(left) else {
        return Step::Tail(left.len());
    };
    let next = at + (4 + body.len());
    let Some((size, parts)) = number_and_rest(body) else {
        return Step::Bad(next);
    };
    if size <= parts.len() {
        Step::Whole {
            dictionary: at + 8,
            value: at + (8 + size),
            next,
        }
    } else {
        Step::Bad(next)
    }
}

// What follows the count of a record that is wholly present.
fn body_of(bytes: &[u8]) -> Option<&[u8]>
    ensures { MatchOption result (present bytes.now ≡ false) (λ body. (present bytes.now ≡ true) × (body.now ≡ body_of bytes.now)) }
{
    let (count, behind) = number_and_rest(bytes)?;
    behind.get(..count)
}

// The number in the first four bytes, highest first, and what stands behind them.
fn number_and_rest(bytes: &[u8]) -> Option<(usize, &[u8])>
    ensures { MatchOption result (length bytes.now < 4)
        (λ p. (4 ≤ length bytes.now) × (p.0 ≡ big_number (take 4 bytes.now)) × (p.1.now ≡ drop 4 bytes.now)) }
{
    let (number, behind) = bytes.split_first_chunk::<4>()?;
    Some((u32::from_be_bytes(*number) as usize, behind))
}
