// What a response comes to, each law as the contract of a function that does nothing.

ghost use Rattle.camac_response_times.specs.Rates.{LowerRatesEase, ResponsesAreLeast, ResponsesFit, ResponsesWait, StretchesAreLeast};

/// The response that is found is one, and the least.
#[tactic(auto, using(crate::proofs::Rates::responses_are_least))]
pub fn responses_are_least()
    ensures { ResponsesAreLeast }
{}

/// The longest stretch that is found is enough for all that is wanted within it, and nothing less is.
pub fn stretches_are_least()
    ensures { StretchesAreLeast }
{}

/// No response is below the cycles of the service that may be in progress.
#[tactic(auto, using(crate::proofs::Rates::responses_wait))]
pub fn responses_wait()
    ensures { ResponsesWait }
{}

/// The end of a service is in its longest stretch, which is within the limit.
#[tactic(auto, using(crate::proofs::Rates::responses_fit))]
pub fn responses_fit()
    ensures { ResponsesFit }
{}

/// At lower rates, or with smaller bounds, no stretch is longer, no call comes later, and no response is greater.
#[tactic(auto, using(crate::proofs::Rates::lower_rates_ease))]
pub fn lower_rates_ease()
    ensures { LowerRatesEase }
{}
