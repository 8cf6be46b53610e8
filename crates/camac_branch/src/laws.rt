// Laws of the plan and the branch, each as the contract of a function that does nothing.

ghost use Rattle.camac_branch.specs.Branch.{PatternsAreOfStations};
ghost use Rattle.camac_branch.specs.Builders.{CratesAreAdded, StationsAreAdded, TypesAreAdded};

/// Bit k is in the pattern of a graded-L operation (IEEE 596) exactly where the answer's pattern has it, and a station of a crate whose
/// demand output is enabled has it in the plan.
#[tactic(auto, using(crate::proofs::Crates::patterns_are_of_stations))]
pub fn patterns_are_of_stations()
    ensures { PatternsAreOfStations }
{}

/// What `Plan::add_type` leaves: the next number and the name are those of the new type. Each other number and name, and the crates, are as
/// they were.
#[tactic(auto, using(crate::proofs::Builders::types_are_added))]
pub fn types_are_added()
    ensures { TypesAreAdded }
{}

/// What `Plan::add_crate` leaves: the crate has its waits and nothing installed. Each other crate, and the types, are as they were.
#[tactic(auto, using(crate::proofs::Builders::crates_are_added))]
pub fn crates_are_added()
    ensures { CratesAreAdded }
{}

/// What `Plan::add_station` leaves: this is installed at the station. Each other station, the waits, and the types are as they were.
#[tactic(auto, using(crate::proofs::Builders::stations_are_added))]
pub fn stations_are_added()
    ensures { StationsAreAdded }
{}
