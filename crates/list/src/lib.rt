// Licensed to the Apache Software Foundation (ASF) under one
// or more contributor license agreements.  See the NOTICE file
// distributed with this work for additional information
// regarding copyright ownership.  The ASF licenses this file
// to you under the Apache License, Version 2.0 (the
// "License"); you may not use this file except in compliance
// with the License.  You may obtain a copy of the License at
//
//   http://www.apache.org/licenses/LICENSE-2.0
//
// Unless required by applicable law or agreed to in writing,
// software distributed under the License is distributed on an
// "AS IS" BASIS, WITHOUT WARRANTIES OR CONDITIONS OF ANY
// KIND, either express or implied.  See the License for the
// specific language governing permissions and limitations
// under the License.

// Derived from `ListBuilder` of parquet-variant 60.1.0, src/builder/list.rs.
// Changed: written in Rattle; a list keeps no offsets (document 02, A8): closing walks the data, measuring each value by its first
// bytes, shifts it up in its lent buffer and writes the header before it; no public function demands anything of its caller.
#![tactic(auto)]

mod close;
mod starts;

pub use close::{ListFrame, close_list};
