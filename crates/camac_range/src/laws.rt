// What ranges say of the numbers in them, each law as the contract of a function that does nothing.

ghost use Rattle.camac_range.specs.Laws.{SumsAreExact, DifferencesAreExact, ProductsAreExact, QuotientsAreExact, RestsAreContained, MeetIsWhatIsInBoth, HullIsAround, InsideMeansEachNumber, NarrowKeeps, OppositeIsNot, TurnedIsSwapped};

/// The range of sums is that of the sums of all pairs, or none where some sum is above `u32::MAX`.
pub fn sums_are_exact()
    ensures { SumsAreExact }
{}

/// The range of differences is that of the differences of all pairs, or none where some difference is below 0.
pub fn differences_are_exact()
    ensures { DifferencesAreExact }
{}

/// The range of products is that of the products of all pairs, or none where some product is above `u32::MAX`.
#[tactic(auto, using(crate::proofs::Within::products_exact))]
pub fn products_are_exact()
    ensures { ProductsAreExact }
{}

/// The range of quotients is that of all quotients by the literal, or none where it is 0.
#[tactic(auto, using(crate::proofs::Within::quotients_exact))]
pub fn quotients_are_exact()
    ensures { QuotientsAreExact }
{}

/// The range of remainders contains each remainder by the literal; there is none only where it is 0.
#[tactic(auto, using(crate::proofs::Within::rests_contained))]
pub fn rests_are_contained()
    ensures { RestsAreContained }
{}

/// The meet is the range of the numbers that are in both, or none where there is no such number.
pub fn meet_is_what_is_in_both()
    ensures { MeetIsWhatIsInBoth }
{}

/// The hull is the smallest range around the numbers that are in either.
pub fn hull_is_around()
    ensures { HullIsAround }
{}

/// A range is inside another exactly where each of its numbers is in the other.
pub fn inside_means_each_number()
    ensures { InsideMeansEachNumber }
{}

/// Narrowing leaves the smallest range around the numbers that compare so with some number of the other range,
/// or none where there is no such number.
#[tactic(auto, using(crate::proofs::Within::narrow_keeps))]
pub fn narrow_keeps()
    ensures { NarrowKeeps }
{}

/// The opposite comparison holds exactly where the comparison does not.
pub fn opposite_is_not()
    ensures { OppositeIsNot }
{}

/// The turned comparison is the comparison with its sides exchanged.
pub fn turned_is_swapped()
    ensures { TurnedIsSwapped }
{}
