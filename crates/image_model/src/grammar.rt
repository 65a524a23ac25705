//! Laws of tests, which pass what the grammar of the crates below says.
ghost use Rattle.image_model.specs.Grammar.{NamesAreTested, SlotsAreTested};

/// The test of names passes exactly the valid ones.
pub fn names_are_tested()
    ensures { NamesAreTested }
{}

/// The test of slots passes exactly the spelling of a slot that has a node's number and a valid name.
pub fn slots_are_tested()
    ensures { SlotsAreTested }
{}
