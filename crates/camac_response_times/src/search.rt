// The response of a service, found by rounds.

ghost use Rattle.std.specs.Prelude.{◌≡◌, ◌+◌, ◌-◌, ◌*◌, ◌^◌, ◌<◌, ◌≤◌, ◌∷◌, [], ℕ, IfSome, IsTrue, IsFalse, length};
ghost use Rattle.std.specs.List.{All};
ghost use Rattle.std.specs.Option.{option_to_list};
ghost use Rattle.camac_response_times.specs.Response.{before, called_within, calls_within, is_up_to, period};
ghost use Rattle.camac_response_times.specs.Rounds.{greatest_wait, settle};
ghost use Rattle.camac_response_times.specs.Found.{FitRates, FitsRate, TakesAll, gathered, is_meant, repeated, response_at, within};

use crate::source::{Rate, Source};
use arrayvec::ArrayVec;
use camac_word::GlBit;

/// The most rounds for one service: each number of cycles that is put in counts as one (own).
pub const MOST_ROUNDS: u32 = 65_535;

/// The most dataway cycles from a look-at-me to the beginning of its service and to the end of it, and those of the longest stretch in which
/// look-at-mes up to its bit are answered without a pause.
#[derive(Clone, Copy, Debug, PartialEq, Eq)]
pub struct Response {
    pub start: u32,
    pub end: u32,
    pub longest: u32,
}

// A service that calls again and takes cycles, of those that are meant: no more of them than lie between its calls. They are a `u64` as a sum
// of them is, since the loop over callers is what takes time.
#[derive(Clone, Copy, Debug, Default, PartialEq, Eq)]
struct Caller {
    rate: Rate,
    cycles: u64,
}

// The services up to a bit, or with `own` false below it, laid out for the rounds: those of the first 24 (a pattern has no more bits) by one call
// of each and by what calls again, and the rest as they are.
#[derive(Drop)]
struct Wanted<'a> {
    bit: GlBit,
    own: bool,
    once: u64,
    callers: ArrayVec<Caller, 24>,
    rest: &'a [Source],
}

// A number of cycles that stands still, and the rounds that are left.
#[derive(Clone, Copy, Debug, PartialEq, Eq)]
struct Settled {
    cycles: u32,
    rounds: u32,
}

/// The response of the service of this number, from 0. There is none where there is no such service, where the longest stretch passes
/// `u32::MAX`, or where `MOST_ROUNDS` rounds are not enough.
#[tactic(auto, unfolding(crate::specs::Rounds::most_rounds))]
pub fn response_of(sources: &[Source], number: usize) -> Option<Response>
    ensures { result ≡ response_at sources.now number }
{
    let Some(source) = sources.get(number) else {
        return None;
    };
    if is_overloaded(0, source.bit, sources) {
        return None;
    }
    let blocked = u64::from(most_before(source.bit, sources));
    let longest = settle_from(blocked, &gather(source.bit, true, sources), MOST_ROUNDS)?;
    let start = most_wait(sources, *source, blocked, longest)?;
    Some(Response {
        start: start as u32,
        end: start as u32 + source.cycles,
        longest: longest.cycles,
    })
}

// Whether the calls up to a bit take all cycles at their rates, so that no stretch of it ends: they would be tried one by one. `load` is what
// services before these take of 2^32 cycles.
fn is_overloaded(load: u64, bit: GlBit, sources: &[Source]) -> bool
    requires { load < 2 ^ 32 }
    ensures all { IsTrue result → (e : ℕ) → TakesAll load e (called_within (is_up_to bit) e sources.now) }
    ensures fit { IsFalse result → All (FitsRate bit) sources.now }
{
    let [source, rest @ ..] = sources else {
        return false;
    };
    let all = load + load_of(bit, *source);
    all >= 1 << 32 || is_overloaded(all, bit, rest)
}

// What the calls of a service up to a bit take of 2^32 cycles at its rate, rounded down.
fn load_of(bit: GlBit, source: Source) -> u64
    ensures few { result ≤ 2 ^ 64 - 2 ^ 32 }
    ensures takes { (e : ℕ) → result * (e + 1) ≤ 2 ^ 32 * called_within (is_up_to bit) e (source ∷ []) }
    ensures fits { result < 2 ^ 32 → FitsRate bit source }
{
    match source.every {
        Some(rate) if source.bit <= bit => {
            u64::from(source.cycles) * (1 << 32) / u64::from(rate.get())
        }
        _ => 0,
    }
}

// The most cycles from the look-at-me of a service to its call, over all its calls in the longest stretch.
fn most_wait(sources: &[Source], source: Source, blocked: u64, longest: Settled) -> Option<u64>
    requires blocked { (blocked ≡ before source.bit sources.now) × (blocked < 2 ^ 32) }
    requires fit { All (FitsRate source.bit) sources.now }
    ensures { result ≡ greatest_wait sources.now source (calls_within source.every longest.cycles) 1 longest.rounds 0 }
{
    let calls = most_calls(source.every, longest.cycles);
    let period = period_of(source.every);
    let below = gather(source.bit, false, sources);
    let mut left = longest.rounds;
    let mut start: u64 = 0;
    let mut n: u64 = 1;
    while n <= calls {
        let first = blocked + (n - 1) * u64::from(source.cycles);
        let at = settle_from(first, &below, left)?;
        start = start.max(u64::from(at.cycles).saturating_sub((n - 1) * period));
        left = at.rounds;
        n += 1;
    }
    Some(start)
}

// The services that are meant, laid out.
fn gather(bit: GlBit, own: bool, sources: &[Source]) -> Wanted<'_>
    requires { All (FitsRate bit) sources.now }
    ensures same { (e : ℕ) → gathered e result ≡ called_within (is_meant bit own) e sources.now }
    ensures fit { FitRates result.callers.items }
{
    let (near, rest) = sources.split_at(sources.len().min(24));
    let mut once = 0;
    let mut callers = ArrayVec::new();
    'services: for source in near {
        if is_meant(bit, own, *source) {
            once += u64::from(source.cycles);
            if let Some(caller) = caller_of(*source) {
                callers.push(caller);
            }
        }
    }
    Wanted {
        bit,
        own,
        once,
        callers,
        rest,
    }
}

// What of a service calls again, and takes cycles when it does.
fn caller_of(source: Source) -> Option<Caller>
    requires { IfSome source.every (λ rate. source.cycles ≤ rate) }
    ensures again { (e : ℕ) → calls_within source.every e * source.cycles ≡ source.cycles + repeated e (option_to_list result) }
    ensures fit { FitRates (option_to_list result) }
{
    match source.every {
        Some(rate) if source.cycles > 0 => Some(Caller {
            rate,
            cycles: u64::from(source.cycles),
        }),
        _ => None,
    }
}

// The fewest cycles that are enough for so many and for what is wanted, found in so many rounds.
fn settle_from(first: u64, wanted: &Wanted<'_>, rounds: u32) -> Option<Settled>
    requires { FitRates wanted.now.callers.items }
    ensures { result ≡ settle (λ e. first + gathered e wanted.now) rounds 0 }
{
    let mut cycles = 0;
    let mut left = rounds;
    while left > 0 {
        left -= 1;
        let next = wanted_within(first, wanted, cycles)?;
        if next == cycles {
            return Some(Settled {
                cycles,
                rounds: left,
            });
        }
        cycles = next;
    }
    None
}

// So many cycles and what is wanted within so many; none above the limit.
fn wanted_within(first: u64, wanted: &Wanted<'_>, cycles: u32) -> Option<u32>
    requires { FitRates wanted.now.callers.items }
    ensures { result ≡ within (first + gathered cycles wanted.now) }
{
    let once = first.checked_add(wanted.once)?;
    let again = repeated_within(once, &wanted.callers, cycles)?;
    sum_within(
        u64::from(again),
        wanted.bit,
        wanted.own,
        cycles,
        wanted.rest,
    )
}

// So many cycles and those of all calls of these but their first ones; none above the limit. Each caller takes at most all cycles, so that the
// sum needs no test before its end.
fn repeated_within(first: u64, callers: &[Caller], cycles: u32) -> Option<u32>
    requires few { length callers.now ≤ 24 }
    requires fit { FitRates callers.now }
    ensures { result ≡ within (first + repeated cycles callers.now) }
{
    if first > u64::from(u32::MAX) {
        return None;
    }
    let mut all = first;
    'callers: for caller in callers {
        all += u64::from(caller.rate.times_in(cycles)) * caller.cycles;
    }
    u32::try_from(all).ok()
}

// So many cycles and those of all calls of services below the bit, and with `own` of the bit too; none above the limit.
fn sum_within(first: u64, bit: GlBit, own: bool, cycles: u32, sources: &[Source]) -> Option<u32>
    ensures { result ≡ within (first + called_within (is_meant bit own) cycles sources.now) }
{
    let mut all = first;
    'services: for source in sources {
        if all > u64::from(u32::MAX) {
            return None;
        }
        if is_meant(bit, own, *source) {
            all += most_calls(source.every, cycles) * u64::from(source.cycles);
        }
    }
    u32::try_from(all).ok()
}

// Whether a service is one up to a bit, or with `own` false below it.
fn is_meant(bit: GlBit, own: bool, source: Source) -> bool
    ensures { result ≡ is_meant bit own source }
{
    source.bit < bit || own && source.bit == bit
}

// The most cycles of a service of a greater bit.
fn most_before(bit: GlBit, sources: &[Source]) -> u32
    ensures { result ≡ before bit sources.now }
{
    let [source, rest @ ..] = sources else {
        return 0;
    };
    let others = most_before(bit, rest);
    if source.bit > bit && source.cycles > others {
        source.cycles
    } else {
        others
    }
}

// The most calls within so many cycles.
fn most_calls(every: Option<Rate>, cycles: u32) -> u64
    ensures { result ≡ calls_within every cycles }
{
    match every {
        None => 1,
        Some(period) => u64::from(period.times_in(cycles)) + 1,
    }
}

// The cycles from one call to the next.
fn period_of(every: Option<Rate>) -> u64
    ensures { result ≡ period every }
{
    match every {
        None => 0,
        Some(period) => u64::from(period.get()),
    }
}
