// The points that searches try: fixed patterns round a centre, and windows of whole pixels.
#![tactic(auto)]

pub mod patterns;
pub mod window;
