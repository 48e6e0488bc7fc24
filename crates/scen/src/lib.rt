//! What callers use of scenarios: lengths, rows and their text, and the search and the certificates
//! that tell which length of a row is right. All of it stands in crates below and is passed on.
#![tactic(auto)]

pub use scenario::{
    Length, Listed, Row, ScenFault, Scenario, agrees, laws, put_listed, read_scen, write_scen,
};
pub use walks::{
    CertFault, DIAGONAL, LengthTable, Proposal, STRAIGHT, SearchFault, certify, octile_distance,
    put_last, search,
};
