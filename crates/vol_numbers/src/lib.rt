//! The words that every crate of the volume speaks in: numbers, blocks, names, the geometry, lists, and the count of faults.
#![tactic(auto)]

mod block;
mod call_plan;
mod fault_count;
mod geometry;
mod item_list;
mod name;
mod runs;

pub use block::{BLOCK_SIZE, Block, BlockNo, Fbn, InoNo};
pub use call_plan::CallPlan;
pub use fault_count::FaultCount;
pub use geometry::{BadGeometry, Geometry};
pub use item_list::{
    ByteList, CallList, ChangeList, CountList, ItemList, PageList, PointerList, RunList,
};
pub use name::{BadName, Name};
pub use runs::{Change, Page, Run};
