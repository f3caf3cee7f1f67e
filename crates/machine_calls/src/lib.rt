//! What a call of a thread does to the harts and the objects, whatever memory the views of the threads are of.
#![tactic(auto)]

mod doing;
mod hart;
mod performing;
mod view;

pub use doing::{Acted, Written, asked, do_as_asked};
pub use hart::{Hart, first_harts};
pub use performing::{most_views, write_back};
pub use view::View;
