// What goes to the event file, what counts of the answers, and what a cycle moves, as laws of the definitions.

ghost use Rattle.camac_play.specs.Abandoned.{AnswersCount, ServicesAreLeft, TextsGiveAnswers};
ghost use Rattle.camac_play.specs.Headline.{ReportSendsEventFile, PlayedSendsEventFile};
ghost use Rattle.camac_play.specs.Size.{SizesAreOfStatements};

/// What a run sends to its event file, up to an answer or to its last line, is the spelling of its events. Where none is begun it is nothing.
pub fn event_file_is_sent()
    ensures report { ReportSendsEventFile }
    ensures played { PlayedSendsEventFile }
{}

/// A text with no line `abandon` gives answers alone, of which all count. Those of a service that is left by such a line do not: what counts, so the
/// event file too, is as if its demand had not been.
pub fn abandoned_services_are_left()
    ensures texts { TextsGiveAnswers }
    ensures answers { AnswersCount }
    ensures services { ServicesAreLeft }
{}

/// A cycle that a run wants has words of 16 bits exactly if the statement where it stands is `cssa`, and the list ahead says so of its first.
#[tactic(auto, using(crate::proofs::Sizes::sizes_are_of_statements))]
pub fn sizes_are_of_statements()
    ensures { SizesAreOfStatements }
{}
