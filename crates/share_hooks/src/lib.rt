//! What the sharing methods do to memory: SHARE_OUT gives an area of the caller to the task that
//! answers, SHARE_IN an area of that task to the caller.
//!
//! Each function is what one method does at one moment of its call, as the definition of its name
//! says. The first three arguments of a call are the base of the caller's area, how many pages it
//! has, and the rights to it; the first of a reply is the base of the other task's area.
#![tactic(auto)]

mod share_in;
mod share_out;

pub use share_in::{in_accept, in_before_send};
pub use share_out::{out_accept, out_before_send};
