// What FenneC scripts are and mean. The definitions stand in specs/; here are the types and the table that code reads, and
// the laws of the definitions.
#![tactic(auto)]

mod laws;
mod operator;
mod readings;
mod results;

pub use laws::{known_results, laws_of_runs};
pub use operator::{Operator, Scalar};
pub use readings::scripts_are_unique;
pub use results::result_type;
