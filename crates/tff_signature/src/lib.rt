//! Names, declarations and symbols of the input language, and the faults of declarations and binders.
#![tactic(auto)]

mod declarations;
mod faults;
mod laws;
mod names;
mod symbols;

pub use declarations::{Declared, check_declarations, declarations_of};
pub use faults::{Later, LaterName};
pub use laws::faults_ascend;
pub use names::{Names, name, span};
pub use symbols::{Signature, signature_of, sort_number};
