//! The options of a command line: what each is called, which values it may have, and the values as they are written: a
//! base in hexadecimal digits, numbers in decimal digits, flags. `None` stands for an option that is not given.
#![tactic(auto)]

mod options;
mod refused;
mod shown;
mod values;

pub use options::{Allowed, MOST_CHOICES, MOST_WORK, ValueOption};
pub use refused::RefusedValue;
pub use shown::Shown;
pub use values::{base_of, is_set, number_of, optional_of};
