// What is told for services: words SERVICE=CYCLES.

ghost use Rattle.std.specs.Prelude.{◌≡◌, ℕ, List, IfOk, IfSome, IfNone, map};
ghost use Rattle.camac_response_times.specs.Setting.{IsNumber, IsSetting, Reads, ReadsSettings, told_for};

use std::alloc::{AllocError, Global};
use thiserror::Error;

/// A number of dataway cycles that is told for the service of this name.
#[derive(Clone, Copy, Debug)]
pub struct Setting<'a> {
    pub service: &'a str,
    pub cycles: u32,
}

/// What is told for services: the fewest cycles from one look-at-me to the next, and the most cycles from a look-at-me to the end of its
/// service.
#[derive(Debug, Drop)]
pub struct Settings<'a> {
    pub every: Vec<Setting<'a>>,
    pub within: Vec<Setting<'a>>,
}

/// The option that a word stands after.
#[derive(Clone, Copy, Debug, PartialEq, Eq, Error)]
pub enum SettingOption {
    #[error("--every")]
    Every,
    #[error("--within")]
    Within,
}

/// What is wrong with the words of settings.
#[derive(Clone, Copy, Debug, Error)]
pub enum Misuse<'a> {
    /// A word is no SERVICE=CYCLES, or its number is out of range: 1 to 4,294,967,295 after `--every`, and from 0 on after `--within`.
    #[error("fault {0} {1}: SERVICE=CYCLES is wanted")]
    Form(SettingOption, &'a str),
    /// A service stands twice after one option.
    #[error("fault {0} {1} twice")]
    Twice(SettingOption, &'a str),
    /// The script has no service of this name.
    #[error("fault {0} {1}: no such service")]
    NoService(SettingOption, &'a str),
}

/// The settings of the words after both options, or the first word that is wrong: those after `--every` come first. The error is want of
/// memory.
pub fn read_settings<'a>(
    alloc: Global,
    every: &[&'a str],
    within: &[&'a str],
) -> Result<Result<Settings<'a>, Misuse<'a>>, AllocError>
    ensures { IfOk result (ReadsSettings (map (λ w. w.now) every.now) (map (λ w. w.now) within.now)) }
{
    let every = match read_words(alloc, SettingOption::Every, every)? {
        Ok(every) => every,
        Err(misuse) => return Ok(Err(misuse)),
    };
    let within = match read_words(alloc, SettingOption::Within, within)? {
        Ok(within) => within,
        Err(misuse) => return Ok(Err(misuse)),
    };
    Ok(Ok(Settings { every, within }))
}

// The settings of the words after one option.
fn read_words<'a>(
    alloc: Global,
    option: SettingOption,
    words: &[&'a str],
) -> Result<Result<Vec<Setting<'a>>, Misuse<'a>>, AllocError>
    ensures { IfOk result (Reads option (map (λ w. w.now) words.now)) }
{
    let mut settings = Vec::new(alloc);
    'words: for word in words {
        let Some(setting) = read_setting(option, word) else {
            return Ok(Err(Misuse::Form(option, word)));
        };
        if told_for(&settings, setting.service.as_bytes()).is_some() {
            return Ok(Err(Misuse::Twice(option, setting.service)));
        }
        settings.push(setting)?;
    }
    Ok(Ok(settings))
}

/// What is told for the service of this name, where something is.
pub fn told_for(settings: &[Setting<'_>], service: &[u8]) -> Option<u32>
    ensures { result ≡ told_for settings.now service.now }
{
    let [setting, rest @ ..] = settings else {
        return None;
    };
    if setting.service.as_bytes() == service {
        Some(setting.cycles)
    } else {
        told_for(rest, service)
    }
}

// The setting of a word: the name is what stands before the first `=`, and not empty; the number after it has decimal digits alone.
fn read_setting(option: SettingOption, word: &str) -> Option<Setting<'_>>
    ensures some { IfSome result (λ s. IsSetting option word.now s.service.now s.cycles) }
    ensures none { IfNone result ((service : List ℕ) (cycles : ℕ) → IsSetting option word.now service cycles → ⊥) }
{
    let (service, digits) = word.split_once('=')?;
    let cycles = number_in(digits)?;
    if service.is_empty() || option == SettingOption::Every && cycles == 0 {
        return None;
    }
    Some(Setting { service, cycles })
}

// The number of decimal digits that stand alone, without a sign.
fn number_in(digits: &str) -> Option<u32>
    ensures some { IfSome result (λ n. IsNumber digits.now n) }
    ensures none { IfNone result ((n : ℕ) → IsNumber digits.now n → ⊥) }
{
    if digits.starts_with('+') {
        return None;
    }
    digits.parse::<u32>().ok()
}
