//! Requests, replies and what the objects are: the plain state of each kind, what a request does to it, and histories.
#![tactic(auto)]

mod codes;
mod heap;
mod item_lines;
mod kind;
mod laws;
mod limits;
mod lines;
mod map;
mod number;
mod object;
mod queue;
mod request;
mod stack;

pub use codes::{Action, Answer};
pub use heap::apply_to_heap;
pub use item_lines::{HoldsItems, take_items};
pub use kind::Kind;
pub use laws::{
    items_come_out_in_order, kept_lists_stay_sound, pop_undoes_push, put_changes_its_register,
    removemins_rise, the_last_eight_are_kept, the_newest_is_first,
};
pub use limits::{MOST_CLIENTS, MOST_SIZE};
pub use lines::{
    count_in, is_count_line, item_in, put_item, put_items, put_register, read_items, register_in,
};
pub use map::{LAST_VERSION, Register, apply_to_map};
pub use number::parse_number;
pub use object::{NotAState, Object, pass_by_lines};
pub use queue::{LAST_POSITION, PlainQueue};
pub use request::{Ask, KEPT_REQUESTS, Kept, LAST_NUMBER, Op, Reply, is_operation, side_of};
pub use stack::apply_to_stack;
