//! The first place where a front of a module is nested too deep, whatever comes behind it.
#![tactic(auto)]

mod aim;
mod ask;
mod demands;
mod depths;
mod front;
mod leasts;
mod nodes;
mod reach;
mod reading;
mod readings;
mod role;
mod roles;

pub use front::find_depth_in_front;
