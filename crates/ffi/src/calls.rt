// Licensed to the Apache Software Foundation (ASF) under one
// or more contributor license agreements.  See the NOTICE file
// distributed with this work for additional information
// regarding copyright ownership.  The ASF licenses this file
// to you under the Apache License, Version 2.0 (the
// "License"); you may not use this file except in compliance
// with the License.  You may obtain a copy of the License at
//
//   http://www.apache.org/licenses/LICENSE-2.0
//
// Unless required by applicable law or agreed to in writing,
// software distributed under the License is distributed on an
// "AS IS" BASIS, WITHOUT WARRANTIES OR CONDITIONS OF ANY
// KIND, either express or implied.  See the License for the
// specific language governing permissions and limitations
// under the License.

// The word calls. That the slices are valid and do not overlap is the caller's, and outside the proof.
// The names are derived from the methods of `VariantBuilder`, `ListBuilder` and `ObjectBuilder` of parquet-variant 60.1.0 (see NOTICE).
// Changed: written in Rattle, over state words.
// Kept (5b; C interface): an exported call is lent the five slices apart, some by `const` pointers, and a name's flag beside the name; `append`,
// `new_container` and `enter` hand these on as they are lent.
// Kept (2; C interface): exported calls that are alike in form have names of their own.
// Kept (1b; C interface): a call answers a number: one that also puts words hands a refusal on by `match`; an inner function would be lent all again.
ghost use Rattle.std.specs.Prelude.{◌≡◌, false, true};
ghost use Rattle.semantics.specs.Record.{Scalars, append as append_of, close as close_of, fixed, open_in, packed, register as register_of, return_to, roll_back, set_mark, storage_of, uniqueness, uuid as uuid_of};
ghost use Rattle.semantics.specs.Refusal.{number_told};
ghost use Rattle.refusals.specs.Decide.{into_of, name_in, name_of, opens_of, size_told};
ghost use Rattle.ffi.specs.Dates.{civil_by, date_of};
ghost use Rattle.actions.specs.Append.{OwnBytes};
ghost use Rattle.ffi.specs.Scalars.{bytes_by, variant_of};
ghost use Rattle.ffi.specs.Words.{DoesWords, EntersWords, FinishesWords, MakesWords};

use crate::WORDS;
use crate::dates::civil_by;
use crate::scalars::{bytes_by, value_by};
use crate::words::{Words, moved, put_container, put_counts, put_elements, view_of};
use actions::{
    Entered, Packed, Scalar, child, close_over, enter_over, finish_over, mark_over, note,
    return_over, rollback_over, size_of, unique_over,
};
use calendar::date::Date;
use marks::{NUMBERS, mark_at, put_mark};
use records::Record;
use refusals::{Entering, Seen, may_make, name_if};
use semantics::{Refusal, fresh_counts};
use value::stored::Stored;

// A fresh builder; children inherit the uniqueness mark, and offsets, ids and dictionary numbers take no fewer bytes than the floor, 1 to 4.
// It sets the counts alone. Any other floor is 24, and nothing is made.
#[unsafe(no_mangle)]
pub extern "C" fn variant_new(words: &mut [usize; WORDS], unique: bool, floor: usize) -> u8
    ensures { MakesWords result words.old words.new unique floor }
{
    if let Err(r) = may_make(floor) {
        return r.number();
    }
    let c = fresh_counts(unique, floor);
    put_counts(words, c);
    0
}

// A name given beforehand, or while containers are open: a new one belongs to the innermost and goes when that one is rolled back.
#[unsafe(no_mangle)]
pub extern "C" fn variant_add_field_name(
    words: &mut [usize; WORDS],
    marks: &[usize; NUMBERS],
    value: &[u8],
    text: &mut [u8],
    ends: &mut [usize],
    entries: &[usize],
    undo: &[usize],
    name: &[u8],
) -> u8
    ensures { DoesWords result words.old words.new marks.now marks.now
        (storage_of value.now text.old ends.old entries.now undo.now)
        (storage_of value.now text.new ends.new entries.now undo.now) (register_of name.now) }
{
    let r = enter(
        words,
        marks,
        value,
        text,
        ends,
        entries,
        undo,
        Some(name),
        Entering::Register,
        Ok(0),
    );
    number_of(r.map(|_| ()))
}

// The innermost container closed.
#[unsafe(no_mangle)]
pub extern "C" fn variant_close(
    words: &mut [usize; WORDS],
    marks: &[usize; NUMBERS],
    value: &mut [u8],
    text: &[u8],
    ends: &[usize],
    entries: &mut [usize],
    undo: &[usize],
) -> u8
    ensures { DoesWords result words.old words.new marks.now marks.now
        (storage_of value.old text.now ends.now entries.old undo.now)
        (storage_of value.new text.now ends.now entries.new undo.now)
        close_of }
{
    let v = view_of(words, marks);
    let r = close_over(v, value, text, ends, entries, undo);
    moved(words, r)
}

// The innermost container rolled back.
#[unsafe(no_mangle)]
pub extern "C" fn variant_rollback(
    words: &mut [usize; WORDS],
    marks: &[usize; NUMBERS],
    value: &[u8],
    text: &[u8],
    ends: &[usize],
    entries: &mut [usize],
    undo: &[usize],
) -> u8
    ensures { DoesWords result words.old words.new marks.now marks.now
        (storage_of value.now text.now ends.now entries.old undo.now)
        (storage_of value.now text.now ends.now entries.new undo.now)
        roll_back }
{
    let v = view_of(words, marks);
    let r = rollback_over(v, value, text, ends, entries, undo);
    moved(words, r)
}

// A scalar of fixed size: the code of its type (specs/Scalars.antt), a signed number, an unsigned one and a scale. Numbers that are
// no scalar are refused: with 7, where no earlier row holds.
#[unsafe(no_mangle)]
pub extern "C" fn variant_append_value(
    words: &mut [usize; WORDS],
    marks: &[usize; NUMBERS],
    value: &mut [u8],
    text: &mut [u8],
    ends: &mut [usize],
    entries: &mut [usize],
    undo: &mut [usize],
    named: bool,
    name: &[u8],
    code: u8,
    z: i64,
    low: u64,
    scale: u8,
) -> u8
    ensures { DoesWords result words.old words.new marks.now marks.now
        (storage_of value.old text.old ends.old entries.old undo.old)
        (storage_of value.new text.new ends.new entries.new undo.new)
        (append_of (name_of named name.now) (fixed (variant_of code z low scale))) }
{
    let x = value_by(code, z, low, scale);
    let given = name_if(named, name);
    number_of(append(words, marks, value, text, ends, entries, undo, given, x))
}

// A date, or a date and a time of day in microseconds, by the code of the type that it is stored as: 11, a date; 12 and 13, a timestamp in
// UTC and one without time zone. Those of any other code are refused as numbers that are no scalar.
#[unsafe(no_mangle)]
pub extern "C" fn variant_append_civil(
    words: &mut [usize; WORDS],
    marks: &[usize; NUMBERS],
    value: &mut [u8],
    text: &mut [u8],
    ends: &mut [usize],
    entries: &mut [usize],
    undo: &mut [usize],
    named: bool,
    name: &[u8],
    code: u8,
    year: i64,
    month: i64,
    day: i64,
    time: i64,
) -> u8
    ensures { DoesWords result words.old words.new marks.now marks.now
        (storage_of value.old text.old ends.old entries.old undo.old)
        (storage_of value.new text.new ends.new entries.new undo.new)
        (append_of (name_of named name.now) (civil_by code (date_of year month day) time)) }
{
    let x = civil_by(code, Date { year, month, day }, time);
    let given = name_if(named, name);
    number_of(append(words, marks, value, text, ends, entries, undo, given, x))
}

// Packed decimal, two digits a byte, and a scale: the smallest of the three decimals that holds the number.
#[unsafe(no_mangle)]
pub extern "C" fn variant_append_packed(
    words: &mut [usize; WORDS],
    marks: &[usize; NUMBERS],
    value: &mut [u8],
    text: &mut [u8],
    ends: &mut [usize],
    entries: &mut [usize],
    undo: &mut [usize],
    named: bool,
    name: &[u8],
    scale: u8,
    bytes: &[u8],
) -> u8
    ensures { DoesWords result words.old words.new marks.now marks.now
        (storage_of value.old text.old ends.old entries.old undo.old)
        (storage_of value.new text.new ends.new entries.new undo.new)
        (append_of (name_of named name.now) (packed scale bytes.now)) }
{
    let x = Packed { scale, bytes }.own();
    let given = name_if(named, name);
    number_of(append(words, marks, value, text, ends, entries, undo, given, x))
}

// What a scalar is stored as, or its own refusal.
#[inline(always)]
fn append<S: Stored + Copy>(
    words: &mut [usize; WORDS],
    marks: &[usize; NUMBERS],
    value: &mut [u8],
    text: &mut [u8],
    ends: &mut [usize],
    entries: &mut [usize],
    undo: &mut [usize],
    name: Option<&[u8]>,
    x: Result<S, Refusal>,
) -> Result<(), Refusal>
    ensures { (s : Scalars) → OwnBytes S.stored s x
        → DoesWords (number_told result) words.old words.new marks.now marks.now
        (storage_of value.old text.old ends.old entries.old undo.old)
        (storage_of value.new text.new ends.new entries.new undo.new)
        (append_of (name_in name.entry) s) }
{
    let c = Words(words).counts();
    let size = size_of(x);
    let e = enter(
        words,
        marks,
        value,
        text,
        ends,
        entries,
        undo,
        name,
        Entering::Append,
        size,
    )?;
    note(e, entries, undo);
    let x = x?;
    // Its room is decided with the rows: nothing is refused here.
    let _ = x.write(value, c.value);
    Ok(())
}

// Kept (1d; C interface): the number that a call answers: 0 where it is carried out, or its refusal's.
fn number_of(r: Result<(), Refusal>) -> u8
    ensures { result ≡ number_told r }
{
    match r {
        Ok(()) => 0,
        Err(r) => r.number(),
    }
}

// Bytes of kind 0, binary; 1, String; 2, short text; 3, plain text. Those of any other kind are refused as numbers that are no scalar.
#[unsafe(no_mangle)]
pub extern "C" fn variant_append_bytes(
    words: &mut [usize; WORDS],
    marks: &[usize; NUMBERS],
    value: &mut [u8],
    text: &mut [u8],
    ends: &mut [usize],
    entries: &mut [usize],
    undo: &mut [usize],
    named: bool,
    name: &[u8],
    kind: u8,
    bytes: &[u8],
) -> u8
    ensures { DoesWords result words.old words.new marks.now marks.now
        (storage_of value.old text.old ends.old entries.old undo.old)
        (storage_of value.new text.new ends.new entries.new undo.new)
        (append_of (name_of named name.now) (bytes_by kind bytes.now)) }
{
    let x = bytes_by(kind, bytes);
    let given = name_if(named, name);
    number_of(append(words, marks, value, text, ends, entries, undo, given, x))
}

#[unsafe(no_mangle)]
pub extern "C" fn variant_append_uuid(
    words: &mut [usize; WORDS],
    marks: &[usize; NUMBERS],
    value: &mut [u8],
    text: &mut [u8],
    ends: &mut [usize],
    entries: &mut [usize],
    undo: &mut [usize],
    named: bool,
    name: &[u8],
    uuid: &[u8; 16],
) -> u8
    ensures { DoesWords result words.old words.new marks.now marks.now
        (storage_of value.old text.old ends.old entries.old undo.old)
        (storage_of value.new text.new ends.new entries.new undo.new)
        (append_of (name_of named name.now) (uuid_of uuid.now)) }
{
    let x = uuid.own();
    let given = name_if(named, name);
    number_of(append(words, marks, value, text, ends, entries, undo, given, x))
}

#[unsafe(no_mangle)]
pub extern "C" fn variant_new_list(
    words: &mut [usize; WORDS],
    marks: &[usize; NUMBERS],
    value: &[u8],
    text: &mut [u8],
    ends: &mut [usize],
    entries: &mut [usize],
    undo: &mut [usize],
    named: bool,
    name: &[u8],
) -> u8
    ensures { DoesWords result words.old words.new marks.now marks.now
        (storage_of value.now text.old ends.old entries.old undo.old)
        (storage_of value.now text.new ends.new entries.new undo.new)
        (open_in (name_of named name.now) false) }
{
    let given = name_if(named, name);
    number_of(new_container(words, marks, value, text, ends, entries, undo, given, false))
}

#[unsafe(no_mangle)]
pub extern "C" fn variant_new_object(
    words: &mut [usize; WORDS],
    marks: &[usize; NUMBERS],
    value: &[u8],
    text: &mut [u8],
    ends: &mut [usize],
    entries: &mut [usize],
    undo: &mut [usize],
    named: bool,
    name: &[u8],
) -> u8
    ensures { DoesWords result words.old words.new marks.now marks.now
        (storage_of value.now text.old ends.old entries.old undo.old)
        (storage_of value.now text.new ends.new entries.new undo.new)
        (open_in (name_of named name.now) true) }
{
    let given = name_if(named, name);
    number_of(new_container(words, marks, value, text, ends, entries, undo, given, true))
}

// Kept (1c; no plainer): a container's record holds its kind as this flag, and so does the definition of an open.
fn new_container(
    words: &mut [usize; WORDS],
    marks: &[usize; NUMBERS],
    value: &[u8],
    text: &mut [u8],
    ends: &mut [usize],
    entries: &mut [usize],
    undo: &mut [usize],
    name: Option<&[u8]>,
    object: bool,
) -> Result<(), Refusal>
    ensures { DoesWords (number_told result) words.old words.new marks.now marks.now
        (storage_of value.now text.old ends.old entries.old undo.old)
        (storage_of value.now text.new ends.new entries.new undo.new)
        (open_in (name_in name.entry) object) }
{
    let c = Words(words).counts();
    let e = enter(
        words,
        marks,
        value,
        text,
        ends,
        entries,
        undo,
        name,
        Entering::Open,
        Ok(0),
    )?;
    let p = note(e, entries, undo);
    let k = child(c, e, p, object);
    put_container(words, c.depth, k);
    put_elements(words, c.depth + 1, 0);
    Ok(())
}

// The uniqueness mark of the innermost object, for later calls.
#[unsafe(no_mangle)]
pub extern "C" fn variant_with_validate_unique_fields(
    words: &mut [usize; WORDS],
    marks: &[usize; NUMBERS],
    value: &[u8],
    text: &[u8],
    ends: &[usize],
    entries: &[usize],
    undo: &[usize],
    unique: bool,
) -> u8
    ensures { DoesWords result words.old words.new marks.now marks.now
        (storage_of value.now text.now ends.now entries.now undo.now)
        (storage_of value.now text.now ends.now entries.now undo.now) (uniqueness unique) }
{
    let v = view_of(words, marks);
    let s = Seen {
        view: &v,
        value,
        text,
        ends,
        entries,
        undo,
    };
    let k = match unique_over(&s, unique) {
        Ok(k) => k,
        Err(r) => return r.number(),
    };
    put_container(words, v.counts.depth - 1, k);
    0
}

// A mark in the innermost container, one of up to 16, numbered from 1 as set.
#[unsafe(no_mangle)]
pub extern "C" fn variant_mark(
    words: &mut [usize; WORDS],
    marks: &mut [usize; NUMBERS],
    value: &[u8],
    text: &[u8],
    ends: &[usize],
    entries: &[usize],
    undo: &[usize],
) -> u8
    ensures { DoesWords result words.old words.new marks.old marks.new
        (storage_of value.now text.now ends.now entries.now undo.now)
        (storage_of value.now text.now ends.now entries.now undo.now) set_mark }
{
    let v = view_of(words, marks);
    let s = Seen {
        view: &v,
        value,
        text,
        ends,
        entries,
        undo,
    };
    let r = match mark_over(&s) {
        Ok(r) => r,
        Err(e) => return e.number(),
    };
    let d = v.counts.depth - 1;
    let k = r.container;
    let m = r.mark;
    put_container(words, d, k);
    put_mark(marks, d, k.marks, m);
    0
}

// The return to a mark of the innermost container: all is as it was then, and later marks are gone.
#[unsafe(no_mangle)]
pub extern "C" fn variant_return_to(
    words: &mut [usize; WORDS],
    marks: &[usize; NUMBERS],
    value: &[u8],
    text: &[u8],
    ends: &[usize],
    entries: &mut [usize],
    undo: &[usize],
    mark: usize,
) -> u8
    ensures { DoesWords result words.old words.new marks.now marks.now
        (storage_of value.now text.now ends.now entries.old undo.now)
        (storage_of value.now text.now ends.now entries.new undo.now)
        (return_to mark) }
{
    let v = view_of(words, marks);
    let d = v.counts.depth.saturating_sub(1);
    let p = mark_at(marks, d, mark);
    let r = match return_over(v, value, text, ends, entries, undo, mark, p) {
        Ok(r) => r,
        Err(e) => return e.number(),
    };
    let c = r.counts;
    let k = r.container;
    put_counts(words, c);
    put_elements(words, c.depth, r.elements);
    put_container(words, d, k);
    0
}

// The dictionary at the start of `out`, its length in `written`, and the builder finished. A refused call leaves `written`.
#[unsafe(no_mangle)]
pub extern "C" fn variant_finish(
    words: &mut [usize; WORDS],
    marks: &[usize; NUMBERS],
    value: &[u8],
    text: &[u8],
    ends: &[usize],
    entries: &[usize],
    undo: &[usize],
    out: &mut [u8],
    written: &mut usize,
) -> u8
    ensures { FinishesWords result words.old words.new marks.now
        (storage_of value.now text.now ends.now entries.now undo.now) out.old out.new
        written.old written.new }
{
    let v = view_of(words, marks);
    let s = Seen {
        view: &v,
        value,
        text,
        ends,
        entries,
        undo,
    };
    let r = match finish_over(&s, out) {
        Ok(r) => r,
        Err(e) => return e.number(),
    };
    let c = r.counts;
    put_counts(words, c);
    *written = r.written;
    0
}

// A register, an append or an open, up to its entry and its bytes: where it is carried out the name is added, and the counts and the
// innermost's elements are put.
fn enter(
    words: &mut [usize; WORDS],
    marks: &[usize; NUMBERS],
    value: &[u8],
    text: &mut [u8],
    ends: &mut [usize],
    entries: &[usize],
    undo: &[usize],
    name: Option<&[u8]>,
    call: Entering,
    size: Result<usize, Refusal>,
) -> Result<Entered, Refusal>
    ensures { EntersWords words.old words.new marks.now
        (storage_of value.now text.old ends.old entries.now undo.now) (name_in name.entry)
        (into_of call) (opens_of call) (number_told size) (size_told size) result text.new ends.new }
{
    let v = view_of(words, marks);
    let e = enter_over(v, value, text, ends, entries, undo, name, call, size)?;
    put_counts(words, e.counts);
    put_elements(words, v.counts.depth, e.elements);
    Ok(e)
}
