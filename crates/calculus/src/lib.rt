// The coroutine calculus with snapshots: its types, its steps, and what is proved of them.
#![tactic(auto)]

pub mod theorems;
