// Licensed to the Apache Software Foundation (ASF) under one
// or more contributor license agreements.  See the NOTICE file
// distributed with this work for additional information
// regarding copyright ownership.  The ASF licenses this file
// to you under the Apache License, Version 2.0 (the
// "License"); you may not use this file except in compliance
// with the License.  You may obtain a copy of the License at
//
//   http://www.apache.org/licenses/LICENSE-2.0
//
// Unless required by applicable law or agreed to in writing,
// software distributed under the License is distributed on an
// "AS IS" BASIS, WITHOUT WARRANTIES OR CONDITIONS OF ANY
// KIND, either express or implied.  See the License for the
// specific language governing permissions and limitations
// under the License.

// Derived from the `&mut self` methods of `VariantBuilder`, `ListBuilder` and `ObjectBuilder` of parquet-variant 60.1.0,
// src/builder.rs, src/builder/list.rs and src/builder/object.rs. Changed: written in Rattle; the calls take the record by `&mut` and each lent
// slice as the call by value of crate `builder` does, by `&` where it only reads: each makes that call on a copy of the record and stores
// the record that came back; a refused call stores none. Beside them stands one struct of references, with the same calls as its methods.
#![tactic(auto)]

mod lending;
mod thin;
mod variant_builder;

use calendar::civil::Civil;
use marks::NUMBERS;
use semantics::Builder;
pub use thin::{
    add_field_name, append, close, finish, mark, new_list, new_object, return_to, rollback,
    with_validate_unique_fields,
};
use value::variant::{Variant, VariantBytes};

// The builder's record, and the table of marks and the slices that it is lent.
#[derive(Drop)]
pub struct VariantBuilder<'a> {
    pub builder: &'a mut Builder,
    pub marks: &'a mut [usize; NUMBERS],
    pub value: &'a mut [u8],
    pub text: &'a mut [u8],
    pub ends: &'a mut [usize],
    pub entries: &'a mut [usize],
    pub undo: &'a mut [usize],
}

// A call to be made. Its name, bytes, UUID and output stand beside it.
#[derive(Clone, Copy)]
pub enum Call {
    AddFieldName,
    AppendValue(Variant),
    AppendBytes(VariantBytes),
    AppendUuid,
    NewList,
    NewObject,
    Close,
    Rollback,
    WithValidateUniqueFields(bool),
    Finish,
    AppendCivil(Civil),
    AppendPacked(u8),
    Mark,
    ReturnTo(usize),
}
