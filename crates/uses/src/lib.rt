//! Callers of the library, each with a contract. `README.md` and `docs/USING.md` quote most of them.
#![tactic(auto)]

pub mod after_level_4_table_mut;
pub mod at_offset;
pub mod first;
pub mod flush_after_calls;
pub mod guest_store;
pub mod layer;
pub mod list_loaded;
pub mod list_mappings;
pub mod load_segments;
pub mod map_buffer;
pub mod map_in_use;
pub mod own_allocator;
pub mod own_memory;
pub mod porting;
pub mod processes;
pub mod recursive_or_refused;
pub mod run_in_pair;
pub mod run_in_space;
pub mod run_in_turn;
pub mod run_list;
pub mod switching_kernel;
pub mod translate_in_dump;
