//! Reads values out of a verified buffer by a path, without generated code and without a check of one's own.
#![tactic(auto)]

mod alike;
mod answer;
pub mod examples;
mod extent;
mod field;
mod hint;
mod known;
mod location;
pub mod location_laws;
mod misfit;
mod path;
mod path_fault;
pub mod path_laws;
mod pieces;
mod place;
pub mod place_laws;
mod spot;
pub mod step;
pub mod step_laws;
mod tested_field;
mod tested_next;
mod tested_value;
mod value;

pub use answer::Answer;
pub use extent::Extent;
pub use hint::{Hint, path_hint, root_hint};
pub use known::KnownField;
pub use location::{
    LocationText, field_of, location_of, object_name, place_of, put_location, write_location,
};
pub use misfit::element_kind;
pub use path::Path;
pub use path_fault::PathFault;
pub use place::{Place, at_root, get};
pub use spot::Spot;
pub use step::Step;
pub use tested_field::Changed;
pub use tested_next::{first_spot, step_from};
pub use tested_value::{Seen, see};
