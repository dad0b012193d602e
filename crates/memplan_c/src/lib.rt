//! memplan for C: `c/memplan.h` declares these functions, and says of each what it needs and what its answers mean.
//!
//! Each hands over to the function of `c_calls` that has its name, and says again what that promises. The definitions stand there.
#![tactic(auto)]

mod arrays;
mod cores;
