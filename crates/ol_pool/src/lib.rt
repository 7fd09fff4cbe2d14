//! Work-stealing pool: the tasks that wait for a worker, in a first-in first-out deque for each
//! hand, from which the other hands steal. A task is the number of a cell (task slot) of the shared
//! memory.
//!
//! - `deques`: the invariant of a hand's deque
//! - `tally`: the counts of a deque's answers
//! - `own`: a hand's own deque
//! - `home`: a hand's own deque, with the counts of its answers
//! - `reach`: a hand's access to the deque of another hand
//! - `pool`: the pool, shared by the workers
//! - `hands`: a worker's part of a pool
//! - `opening`: a new pool: its deques and its hands
//! - `looks`: the search for a cell over parts of any type
//! - `pool_look`: a hand's search over its pool
//! - `calls`: the calls of a worker: putting a cell and taking a cell
//! - `laws`: the theorem that no cell is lost
//!
//! The contract of the toolchain's `crossbeam_deque` is trusted. No contract counts the cells of a
//! whole pool, says that a deque which gave no cell was empty, or promises fairness; that another
//! hand finds a cell that was put is only tested.
#![tactic(auto)]

mod calls;
mod deques;
mod hands;
mod home;
mod laws;
mod looks;
mod opening;
mod own;
mod pool;
mod pool_look;
mod reach;
mod tally;

pub use deques::{Fair, Log};
pub use hands::Hand;
pub use laws::no_cell_is_lost;
pub use looks::{Look, Seen, take_from};
pub use pool::Pool;
pub use pool_look::PoolLook;
