// Calls for other languages, `extern "C"`: the builder's state is WORDS numbers that the caller lends with the slices at each call.
//
// Words 0 to 8 are the counts: value bytes, entries, open containers, names, name bytes, two flags (unique, finished), the floor, and undo
// records. Then come 64 containers of eleven words: the starting marks (value bytes, names, name bytes, entries), a tag that is 0 where the
// parent's entry is new, the id and the former offset where it replaced one, two flags (object, unique), the starting mark of undo records,
// and how many marks are set. A flag is "not 0". Then comes a word for each of these containers, from word 713 on: of a list how many
// elements it has, a child open in it among them; of an object it means nothing. Any words are a builder; `variant_new` makes a fresh one of
// them. The marks that are set stand in a table of their own, lent beside the words; what a fresh builder's table holds means nothing.
//
// A call answers 0, or document 01's number and then leaves the words, the table and the slices as they were. Its contract demands nothing
// of the caller. What a proof cannot see is the caller's: that the words, the table and the slices are valid for the call and do not
// overlap. A slice is passed as a pointer and a length.
#![tactic(auto)]

mod batch_file;
mod calls;
mod dates;
mod packed;
mod scalars;
mod words;

// How many state words there are: 9 counts, 64 containers of 11 words, and the elements of each.
pub const WORDS: usize = 777;
