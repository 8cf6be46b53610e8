// Each law of the transfers as the contract of a function that does nothing.

ghost use Rattle.camac_esone.specs.Laws.{StopTestGivesQStop, RepeatTestGivesQRepeat, ScanTestGivesScan, AnyRepliesDrive};
ghost use Rattle.camac_esone.specs.Bounds.{QStopIsBounded, QRepeatIsBounded, ScanIsBounded, ScanIsWithinAddresses};

/// The test of Q-stop for one more cycle gives exactly the lists of Q-stop, and cut short their prefixes.
#[tactic(auto, using(crate::proofs::QStopLists::q_stop_gives))]
pub fn q_stop_test_gives_its_lists()
    ensures { StopTestGivesQStop }
{}

/// The test of Q-repeat for one more cycle gives exactly the lists of Q-repeat, and cut short their prefixes.
#[tactic(auto, using(crate::proofs::QRepeatLists::q_repeat_gives))]
pub fn q_repeat_test_gives_its_lists()
    ensures { RepeatTestGivesQRepeat }
{}

/// The test of the scan for one more cycle gives exactly the lists of Scan, and cut short their prefixes.
#[tactic(auto, using(crate::proofs::ScanLists::scan_gives))]
pub fn scan_test_gives_scan()
    ensures { ScanTestGivesScan }
{}

/// Whatever Q the replies have, a test for one more cycle drives cycles up to its end or as far as the replies go.
#[tactic(auto, using(crate::proofs::Drives::any_replies_drive))]
pub fn any_replies_drive()
    ensures { AnyRepliesDrive }
{}

/// Q-stop makes at most `max` cycles.
#[tactic(auto, using(crate::proofs::InProgress::q_stop_bounded))]
pub fn q_stop_is_bounded()
    ensures { QStopIsBounded }
{}

/// Q-repeat makes at most `limit` cycles, and at most `max` with Q=1.
#[tactic(auto, using(crate::proofs::InProgress::q_repeat_bounded))]
pub fn q_repeat_is_bounded()
    ensures { QRepeatIsBounded }
{}

/// A scan makes at most `max` cycles with Q=1, and at most one with Q=0 at each station.
#[tactic(auto, using(crate::proofs::InProgress::scan_bounded))]
pub fn scan_is_bounded()
    ensures { ScanIsBounded }
{}

/// A scan makes no more cycles than there are addresses from the first to the final one.
#[tactic(auto, using(crate::proofs::InProgress::scan_within_addresses))]
pub fn scan_is_within_addresses()
    ensures { ScanIsWithinAddresses }
{}
