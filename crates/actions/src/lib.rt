// Licensed to the Apache Software Foundation (ASF) under one
// or more contributor license agreements.  See the NOTICE file
// distributed with this work for additional information
// regarding copyright ownership.  The ASF licenses this file
// to you under the Apache License, Version 2.0 (the
// "License"); you may not use this file except in compliance
// with the License.  You may obtain a copy of the License at
//
//   http://www.apache.org/licenses/LICENSE-2.0
//
// Unless required by applicable law or agreed to in writing,
// software distributed under the License is distributed on an
// "AS IS" BASIS, WITHOUT WARRANTIES OR CONDITIONS OF ANY
// KIND, either express or implied.  See the License for the
// specific language governing permissions and limitations
// under the License.

// Each call over pieces of the builder's record: what it sees of the record (`View`), and the lent slices. A piece decides all
// rows of its call first and then acts; it gives back its refusal, or the counts and a list's elements, of an open, of the
// uniqueness mark and of marks the container. The calls over the whole record are in the crate `builder`, those over state words in `ffi`.
// Derived from `ParentState`, `ListState` and `ObjectState` of parquet-variant 60.1.0, src/builder.rs, src/builder/list.rs and
// src/builder/object.rs (see NOTICE), as are the modules here. Changed: written in Rattle, over counts and lent slices.
#![tactic(auto)]

mod append;
mod dictionary;
mod enter;
mod flags;
mod header;
mod mark;
mod open;
mod own;
mod undo;
mod unique;

pub use append::append_over;
pub use dictionary::finish_over;
pub use enter::{Entered, Put, enter_over, note};
pub use flags::enter_by_number;
pub use header::close_over;
pub use mark::{mark_over, return_over};
pub use open::{child, open_over, register};
pub use own::{Packed, Scalar, size_of};
use semantics::{Container, Counts, Mark};
pub use undo::rollback_over;
pub use unique::unique_over;

// What a call that is carried out leaves: the counts then, and the elements of the container that is innermost then.
#[derive(Clone, Copy)]
pub struct Moved {
    pub counts: Counts,
    pub elements: usize,
}

// An open: the counts, the elements of the container that was innermost, and the new container. That has no elements yet.
#[derive(Clone, Copy)]
pub struct Opened {
    pub counts: Counts,
    pub elements: usize,
    pub container: Container,
}

// A mark that is set: what it holds, and the innermost container then.
#[derive(Clone, Copy)]
pub struct Marked {
    pub container: Container,
    pub mark: Mark,
}

// A return: the counts, and the innermost container with its elements.
#[derive(Clone, Copy)]
pub struct Returned {
    pub counts: Counts,
    pub elements: usize,
    pub container: Container,
}

// A finish: the counts, and the bytes written.
#[derive(Clone, Copy)]
pub struct Ended {
    pub counts: Counts,
    pub written: usize,
}
