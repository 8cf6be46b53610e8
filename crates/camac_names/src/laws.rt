// Laws of linking, each as the contract of a function that does nothing.

ghost use Rattle.camac_names.specs.Link.{FirstIsLinkFault};
ghost use Rattle.camac_names.specs.OwnBits.{LinkedHaveOwnBits};

/// Each service of a linked script has a bit of the graded-L pattern, and no two services have the same.
#[tactic(auto, using(crate::proofs::OwnBits::linked_have_own_bits))]
pub fn linked_have_own_bits()
    ensures { LinkedHaveOwnBits }
{}

/// The first of the faults of linking is the one that refuses.
#[tactic(auto, using(crate::proofs::Firsts::first_is_link_fault))]
pub fn first_is_link_fault()
    ensures { FirstIsLinkFault }
{}
