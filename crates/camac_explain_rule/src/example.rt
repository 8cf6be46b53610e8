// An example of each rule: a plan, or a script that the sample plan refuses at a line. The page docs/REFUSALS.md has the same: tests/explain_test.py
// compares them, and sees that each is refused so.

use camac_names::LinkRule;
use camac_plan::PlanRule;
use camac_rules::CheckRule;
use camac_text::TextRule;

/// A text that breaks a rule, and before it what it is.
#[derive(Clone, Copy, Debug)]
pub struct Example {
    pub head: &'static str,
    pub text: &'static str,
}

/// A plan that breaks a rule of plans.
pub fn plan_example(rule: PlanRule) -> Example {
    let (head, text) = match rule {
        PlanRule::NotToml => (
            "Example, a plan:",
            "  buffer = 64
  [[crate]
  number = 1
",
        ),
        PlanRule::UnknownKey => (
            "Example, a plan:",
            "  [[type]]
  name = \"ADC\"
  commands = [ { f = 0, a = 0, to = 11, width = 12 } ]
  colour = 1
",
        ),
        PlanRule::MissingOrWrongKind => (
            "Example, a plan:",
            "  [[type]]
  commands = [ ]
",
        ),
        PlanRule::OutOfRange => (
            "Example, a plan:",
            "  [[type]]
  name = \"ADC\"
  commands = [ { f = 0, a = 0, to = 11, width = 12 } ]
  [[crate]]
  number = 1
  [[crate.station]]
  n = 5
  type = \"ADC\"
  gl = 25
",
        ),
        PlanRule::CrateTwice => (
            "Example, a plan:",
            "  [[crate]]
  number = 1
  [[crate]]
  number = 1
",
        ),
        PlanRule::StationTwice => (
            "Example, a plan:",
            "  [[type]]
  name = \"ADC\"
  commands = [ { f = 0, a = 0, to = 11, width = 12 } ]
  [[crate]]
  number = 1
  [[crate.station]]
  n = 5
  type = \"ADC\"
  [[crate.station]]
  n = 5
  type = \"ADC\"
",
        ),
        PlanRule::UnknownType => (
            "Example, a plan:",
            "  [[crate]]
  number = 1
  [[crate.station]]
  n = 5
  type = \"ADC\"
",
        ),
        PlanRule::DeclaredTwice => (
            "Example, a plan:",
            "  [[type]]
  name = \"ADC\"
  commands = [ { f = 0, a = 0, to = 11 }, { f = 0, a = 11 } ]
",
        ),
        PlanRule::BitTwice => (
            "Example, a plan:",
            "  [[type]]
  name = \"ADC\"
  commands = [ { f = 0, a = 0, to = 11, width = 12 } ]
  [[crate]]
  number = 1
  [[crate.station]]
  n = 5
  type = \"ADC\"
  gl = 3
  [[crate.station]]
  n = 6
  type = \"ADC\"
  gl = 3
",
        ),
        PlanRule::TooDeep => (
            "Example, a plan:",
            "  [[crate]]
  number = 1
  station = [[[[[[[[[[[[[[[[ { n = 5, type = \"ADC\" } ]]]]]]]]]]]]]]]]
",
        ),
    };
    Example { head, text }
}

/// A script whose text breaks a rule.
pub fn text_example(rule: TextRule) -> Example {
    let (head, text) = match rule {
        TextRule::BadByte => (
            "Example on the plan @sample, refused on line 4:",
            "  cdlam adc 1 1 5 12
  var v
  service adc within 100 cycles event 100 words {
    put v;
  }
",
        ),
        TextRule::UnexpectedToken => (
            "Example on the plan @sample, refused on line 5:",
            "  cdlam adc 1 1 5 12
  var k
  service adc within 100 cycles event 100 words {
    k = 5
    while k > 0 {
      k = k - 1
    }
  }
",
        ),
        TextRule::NumberTooLarge => (
            "Example on the plan @sample, refused on line 5:",
            "  cdlam adc 1 1 5 12
  var v
  service adc within 100 cycles event 100 words {
    cdreg r 1 1 5 0
    cfsa 32 r
  }
",
        ),
        TextRule::DeclaredTwice => (
            "Example on the plan @sample, refused on line 2:",
            "  cdlam adc 1 1 5 12
  var v adc
",
        ),
        TextRule::NotDeclared => (
            "Example on the plan @sample, refused on line 4:",
            "  cdlam adc 1 1 5 12
  var time
  service adc within 3 cycles event 1 words {
    put tmie
  }
",
        ),
        TextRule::LimitPassed => (
            "Example on the plan @sample, refused on line 1:",
            "  var a_name_of_more_than_thirty_two_bytes
",
        ),
        TextRule::BranchNotOne => (
            "Example on the plan @sample, refused on line 1:",
            "  cdlam adc 2 1 5 12
",
        ),
    };
    Example { head, text }
}

/// A script that breaks a rule of linking.
pub fn link_example(rule: LinkRule) -> Example {
    let (head, text) = match rule {
        LinkRule::LamNotInstalled => (
            "Example on the plan @sample, refused on line 1:",
            "  cdlam adc 1 1 4 12
",
        ),
        LinkRule::StationWithoutBit => (
            "Example on the plan @sample, refused on line 2:",
            "  cdlam reg 1 1 6 0
  service reg within 3 cycles event 0 words { }
",
        ),
        LinkRule::StationServedTwice => (
            "Example on the plan @sample, refused on line 4:",
            "  cdlam adc 1 1 5 12
  cdlam full 1 1 5 13
  service adc within 3 cycles event 0 words { }
  service full within 3 cycles event 0 words { }
",
        ),
        LinkRule::EventAboveBuffer => (
            "Example on the plan @sample, refused on line 2:",
            "  cdlam adc 1 1 5 12
  service adc within 3 cycles event 5000 words { }
",
        ),
    };
    Example { head, text }
}

/// A script that breaks a rule of the checker.
pub fn check_example(rule: CheckRule) -> Example {
    let (head, text) = match rule {
        CheckRule::StationNotInstalled => (
            "Example on the plan @sample, refused on line 6:",
            "  cdlam adc 1 1 5 12
  var v i
  service adc within 100 cycles event 100 words {
    for i = 5 to 7 {
      cdreg r 1 1 i 0
      cfsa 0 r -> v
    }
  }
",
        ),
        CheckRule::CommandNotDeclared => (
            "Example on the plan @sample, refused on line 5:",
            "  cdlam adc 1 1 5 12
  var v
  service adc within 100 cycles event 100 words {
    cdreg r 1 1 6 1
    cfsa 0 r -> v
  }
",
        ),
        CheckRule::WrongDirection => (
            "Example on the plan @sample, refused on line 5:",
            "  cdlam adc 1 1 5 12
  var v
  service adc within 100 cycles event 100 words {
    cdreg r 1 1 6 0
    cfsa 16 r -> v
  }
",
        ),
        CheckRule::ValueOutOfRange => (
            "Example on the plan @sample, refused on line 4:",
            "  cdlam adc 1 1 5 12
  var v
  service adc within 100 cycles event 100 words {
    v = v - 1
  }
",
        ),
        CheckRule::ValueTooWide => (
            "Example on the plan @sample, refused on line 5:",
            "  cdlam adc 1 1 5 12
  var v
  service adc within 100 cycles event 100 words {
    cdreg r 1 1 6 0
    cfsa 16 r <- 256
  }
",
        ),
        CheckRule::RegisterUnset => (
            "Example on the plan @sample, refused on line 5:",
            "  cdlam adc 1 1 5 12
  var v
  service adc within 100 cycles event 100 words {
    if q { cdreg r 1 1 6 0 }
    cfsa 27 r
  }
",
        ),
        CheckRule::MeasureBroken => (
            "Example on the plan @sample, refused on line 5:",
            "  cdlam adc 1 1 5 12
  var k
  service adc within 100 cycles event 100 words {
    k = 10
    while k > 0 turns 10 by k {
      k = k - 1
      k = 5
    }
  }
",
        ),
        CheckRule::KeepFailsAtEntry => (
            "Example on the plan @sample, refused on line 5:",
            "  cdlam adc 1 1 5 12
  var k i
  service adc within 100 cycles event 100 words {
    i = 12
    for k = 1 to 20 keep i in 0..11 { }
  }
",
        ),
        CheckRule::KeepFailsAfterTurn => (
            "Example on the plan @sample, refused on line 4:",
            "  cdlam adc 1 1 5 12
  var k i
  service adc within 100 cycles event 100 words {
    for k = 1 to 20 keep i in 0..11 { i = i + 1 }
  }
",
        ),
        CheckRule::TooManyTurns => (
            "Example on the plan @sample, refused on line 5:",
            "  cdlam adc 1 1 5 12
  var k
  service adc within 100 cycles event 100 words {
    k = 10
    while k > 0 turns 9 by k { k = k - 1 }
  }
",
        ),
        CheckRule::TooManyWords => (
            "Example on the plan @sample, refused on line 3:",
            "  cdlam adc 1 1 5 12
  var v
  service adc within 0 cycles event 1 words {
    put 1
    put 2
  }
",
        ),
        CheckRule::TooManyCycles => (
            "Example on the plan @sample, refused on line 3:",
            "  cdlam adc 1 1 5 12
  var v
  service adc within 2 cycles event 0 words {
    cdreg r 1 1 5 0
    cfsa 0 r -> v
  }
",
        ),
        CheckRule::ScanCratesDiffer => (
            "Example on the plan @sample, refused on line 6:",
            "  cdlam adc 1 1 5 12
  var t
  service adc within 100 cycles event 100 words {
    cdreg a 1 1 5 0
    cdreg b 1 2 5 0
    cfmad 0 a b max 4 tally t
  }
",
        ),
        CheckRule::CountAboveTable => (
            "Example on the plan @sample, refused on line 6:",
            "  cdlam adc 1 1 5 12
  var t
  table g = 1 2 3
  service adc within 100 cycles event 100 words {
    cdreg r 1 1 6 0
    cfubc 16 r table g max 4 tally t
  }
",
        ),
        CheckRule::CrateUnfit => (
            "Example on the plan @sample, refused on line 4:",
            "  cdlam adc 1 1 5 12
  var v
  service adc within 100 cycles event 100 words {
    ccci 2 on
  }
",
        ),
        CheckRule::WordTooWide => (
            "Example on the plan @sample, refused on line 5:",
            "  cdlam adc 1 1 5 12
  var v
  service adc within 100 cycles event 100 words {
    v = 20000000
    put v
  }
",
        ),
        CheckRule::LoopVariableAssigned => (
            "Example on the plan @sample, refused on line 4:",
            "  cdlam adc 1 1 5 12
  var i
  service adc within 100 cycles event 100 words {
    for i = 1 to 2 { i = 3 }
  }
",
        ),
        CheckRule::TooManySteps => (
            "Example on the plan @sample, refused on line 1:",
            "  proc get(s in 0..11) within 3 cycles event 1 words steps 2 {
    cdreg r 1 1 5 s
    cfsa 0 r -> s
    put s
  }
",
        ),
        CheckRule::ArgumentOutOfRange => (
            "Example on the plan @sample, refused on line 7:",
            "  cdlam adc 1 1 5 12
  proc get(s in 0..11) within 3 cycles event 1 words steps 3 {
    cdreg r 1 1 5 s
    cfsa 0 r -> s
    put s
  }
  service adc within 3 cycles event 1 words { call get(12) }
",
        ),
    };
    Example { head, text }
}
