//! Values of SQL, the words that name and hold them, and the reasons why a call is refused.
#![tactic(auto)]

mod affinity;
mod collation;
mod fault;
pub mod limits;
mod many;
mod name;
mod page_size;
mod text;
mod value;

pub use affinity::{Affinity, affinity_of, apply, numbers_are_shaped};
pub use collation::{Collation, compare, compare_fields, order_is_total};
pub use fault::{Damage, Fault, Feature, Misuse, Object, R, RaisedText};
pub use many::Many;
pub use name::Name;
pub use page_size::is_page_size;
pub use text::{Bytes, Text};
pub use value::{Field, Row, Value};
