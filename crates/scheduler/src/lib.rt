// Fair schedulers over sixteen places, behind one meaning.
#![tactic(auto)]

pub mod drr;
pub mod meaning;
pub mod offer;
pub mod pick;
pub mod run;
pub mod urgency;
