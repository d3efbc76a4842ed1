// Licensed to the Apache Software Foundation (ASF) under one
// or more contributor license agreements.  See the NOTICE file
// distributed with this work for additional information
// regarding copyright ownership.  The ASF licenses this file
// to you under the Apache License, Version 2.0 (the
// "License"); you may not use this file except in compliance
// with the License.  You may obtain a copy of the License at
//
//   http://www.apache.org/licenses/LICENSE-2.0
//
// Unless required by applicable law or agreed to in writing,
// software distributed under the License is distributed on an
// "AS IS" BASIS, WITHOUT WARRANTIES OR CONDITIONS OF ANY
// KIND, either express or implied.  See the License for the
// specific language governing permissions and limitations
// under the License.

// Derived from `VariantBuilder`, `ListBuilder` and `ObjectBuilder` of parquet-variant 60.1.0, src/builder.rs, src/builder/list.rs
// and src/builder/object.rs. Changed: written in Rattle; the nested `&mut` builders are one record with 64 containers, passed and
// given back by value over a lent table of marks and five lent slices; `Drop` is the call `rollback`; every call is total, and a refused
// one answers with its row of the table of refusals, the builder and all that was lent being as they were. Marks are new.
#![tactic(auto)]

mod calls;
mod made;

pub use actions::{Packed, Scalar};
pub use calls::{
    add_field_name, append, close, finish, mark, new_list, new_object, return_to, rollback,
    with_validate_unique_fields,
};
pub use made::{new, with_floor};
use semantics::{Builder, Refusal};

// A refused floor, and the builder that holds it.
#[derive(Clone, Copy)]
pub struct BadFloor {
    pub refused: Refusal,
    pub builder: Builder,
}

// A finish that is carried out: the bytes written into its output, and the builder then.
#[derive(Clone, Copy)]
pub struct Finished {
    pub written: usize,
    pub builder: Builder,
}
