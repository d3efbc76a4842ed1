// Licensed to the Apache Software Foundation (ASF) under one
// or more contributor license agreements.  See the NOTICE file
// distributed with this work for additional information
// regarding copyright ownership.  The ASF licenses this file
// to you under the Apache License, Version 2.0 (the
// "License"); you may not use this file except in compliance
// with the License.  You may obtain a copy of the License at
//
//   http://www.apache.org/licenses/LICENSE-2.0
//
// Unless required by applicable law or agreed to in writing,
// software distributed under the License is distributed on an
// "AS IS" BASIS, WITHOUT WARRANTIES OR CONDITIONS OF ANY
// KIND, either express or implied.  See the License for the
// specific language governing permissions and limitations
// under the License.

// The builder's record. Its calls are in the crate `builder`; what they mean is in specs/, and the theorems in proofs/.
// Derived from the records `VariantBuilder`, `ParentState`, `ListState` and `ObjectState` of parquet-variant 60.1.0, src/builder.rs,
// src/builder/list.rs and src/builder/object.rs (see NOTICE). Changed: written in Rattle, one record with 64 containers.
#![tactic(auto)]

ghost use Rattle.std.specs.Prelude.{◌≡◌};
ghost use Rattle.semantics.specs.Record.{good_floor, mark_now, no_container};
ghost use Rattle.semantics.specs.Run.{fresh_counts};

mod refusal;

use container::Entry;
use metadata::MetadataBuilder;
pub use refusal::Refusal;

// An open container. The first five are its starting marks: the used counts at its opening. `parent` says how its entry in its parent came about,
// which is read when it is rolled back: `None` of a new entry, else the id and the former offset. The last is how many marks are set in it.
// Kept (1c; no plainer): `object` and `unique` are yes or no by themselves; all other fields stand for either kind.
#[derive(Clone, Copy)]
pub struct Container {
    pub value: usize,
    pub names: usize,
    pub text: usize,
    pub entries: usize,
    pub undo: usize,
    pub parent: Option<Entry>,
    pub object: bool,
    pub unique: bool,
    pub marks: usize,
}

// A mark that is set: the used counts, the elements of the list that it is set in, and the uniqueness mark there, as they were then.
// Kept (1c; no plainer): `unique` is the object's own yes or no, beside no value.
#[derive(Clone, Copy)]
pub struct Mark {
    pub value: usize,
    pub names: usize,
    pub text: usize,
    pub entries: usize,
    pub undo: usize,
    pub count: usize,
    pub unique: bool,
}

// The used counts, the open containers' number, the dictionary's record, the uniqueness mark at the top, whether a finish was accepted, and
// the floor: how many bytes offsets, ids and dictionary numbers take at least.
// Kept (1c; no plainer): two marks that are yes or no; a builder's counts are there before and after its finish.
#[derive(Clone, Copy)]
pub struct Counts {
    pub value: usize,
    pub entries: usize,
    pub undo: usize,
    pub depth: usize,
    pub dictionary: MetadataBuilder,
    pub unique: bool,
    pub finished: bool,
    pub floor: usize,
}

// Beside each container its elements: how many values a list holds, a child open in it among them; of an object free. The marks that are set
// stand in a table of their own, which is lent beside the record.
#[derive(Clone, Copy)]
pub struct Builder {
    pub containers: [Container; 64],
    pub elements: [usize; 64],
    pub counts: Counts,
}

// What a call sees of the record: the counts; the innermost open container and its elements; its parent and the parent's elements, the
// innermost among them; and whether at most 64 are open, no starting mark falls from one of them to the next, no list with a child open
// in it counts more than it can hold, and the marks set in each are at most 16 and in order.
// Kept (1c; no plainer): `chain` answers one test; every call also reads the rest of a record that is damaged.
#[derive(Clone, Copy)]
pub struct View {
    pub counts: Counts,
    pub inner: Container,
    pub elements: usize,
    pub parent: Container,
    pub siblings: usize,
    pub chain: bool,
}

// No container: what stands for the innermost and for the parent where there is none.
// Kept (1d; no plainer): the table's tests read the depth first and then these, as `innermost` and `parent_of` have it; an `Option` would be asked twice.
pub fn no_container() -> Container
    ensures { result ≡ no_container }
{
    Container {
        value: 0,
        names: 0,
        text: 0,
        entries: 0,
        undo: 0,
        parent: None,
        object: false,
        unique: false,
        marks: 0,
    }
}

// Is this a floor that a builder may have, 1 to 4 bytes?
pub fn good_floor(floor: usize) -> bool
    ensures { result ≡ good_floor floor }
{
    (1..=4).contains(&floor)
}

// The counts of a fresh builder; children inherit the uniqueness mark.
// Kept (1c; no plainer): the mark is the caller's yes or no, and is kept as it is given.
pub fn fresh_counts(unique: bool, floor: usize) -> Counts
    ensures { result ≡ fresh_counts unique floor }
{
    Counts {
        value: 0,
        entries: 0,
        undo: 0,
        depth: 0,
        dictionary: MetadataBuilder::new(),
        unique,
        finished: false,
        floor,
    }
}

// The used counts as a mark would hold them now: in a container of n elements, with that uniqueness mark.
// Kept (1c; no plainer): as in `Mark`.
pub fn mark_now(c: Counts, n: usize, unique: bool) -> Mark
    ensures { result ≡ mark_now c n unique }
{
    Mark {
        value: c.value,
        names: c.dictionary.num_field_names(),
        text: c.dictionary.metadata_size(),
        entries: c.entries,
        undo: c.undo,
        count: n,
        unique,
    }
}
