// No code: what `type_size` and `size_range` give of a text stands in specs/. Crate file_sizes has the code.

#![tactic(auto)]
