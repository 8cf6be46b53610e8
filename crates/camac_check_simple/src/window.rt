// The window of a scan: all stations and sub-addresses from a first to a final one.

ghost use Rattle.std.specs.Prelude.{◌≡◌, ◌<◌};
ghost use Rattle.camac_rules.specs.Addresses.{station_end};
ghost use Rattle.camac_rules.specs.Transfers.{is_one_crate, has_sub_addresses};
ghost use Rattle.camac_rules.specs.Walks.{count_below, first_failing};
ghost use Rattle.camac_rules.specs.Windows.{window_of, stations_of, sub_addresses_at, is_empty, is_installed, missing_over, is_declared, undeclared_over, window_size, scan_cycles, scan_kept};
ghost use Rattle.camac_check_simple.specs.Stations.{has_station, installed_at, declared_at};

use camac_branch::Plan;
use camac_check_known::{
    Region, STATION_END, end_of, first_failing, is_declared, is_station, not_installed,
    undeclared_at,
};
use camac_range::Range;
use camac_rules::Case;
use camac_word::{CrateNo, Function};
use std::marker::Model;

/// The stations and sub-addresses of one crate that a scan may reach.
#[derive(Clone, Copy)]
pub struct Window {
    crate_no: u32,
    first_station: u32,
    first_sub_address: u32,
    last_station: u32,
    last_sub_address: u32,
}

impl Model for Window {
    ghost use Rattle.camac_rules.specs.Windows.{Window as Reached};

    ghost Value = { Reached };

    ghost view = { λ w. record { crate_no = w.crate_no; first_station = w.first_station; first_sub_address = w.first_sub_address; last_station = w.last_station; last_sub_address = w.last_sub_address } };

    ghost inverse = { λ w. record { crate_no = w.crate_no; first_station = w.first_station; first_sub_address = w.first_sub_address; last_station = w.last_station; last_sub_address = w.last_sub_address } };
}

impl Window {
    /// The widest window between the addresses of two registers.
    pub fn between(g: Region, h: Region) -> Self
        ensures { result ≡ window_of g h }
    {
        Window {
            crate_no: g.crates().lo(),
            first_station: g.stations().lo(),
            first_sub_address: g.sub_addresses().lo(),
            last_station: h.stations().hi(),
            last_sub_address: h.sub_addresses().hi().min(15),
        }
    }

    pub fn crate_no(self) -> u32
        ensures { result ≡ self.crate_no }
    {
        self.crate_no
    }

    /// Whether each of its stations is installed.
    #[tactic(auto, using(camac_check_known::proofs::Walks::all_found))]
    pub fn is_installed(self, plan: &Plan) -> bool
        ensures { result ≡ is_installed plan.now self }
    {
        self.is_empty() || (self.last_station < STATION_END && self.first_missing(plan).is_none())
    }

    fn first_missing(self, plan: &Plan) -> Option<u32>
        ensures { result ≡ first_failing (installed_at plan.now self) self.first_station (count_below station_end (stations_of self)) }
    {
        first_failing(
            self.first_station,
            end_of(self.last_station, STATION_END),
            |n| { installed_at(plan, self, n) },
        )
    }

    /// Its first station that is not installed.
    pub fn missing(self, plan: &Plan) -> Case
        ensures { result ≡ missing_over plan.now self }
    {
        let past = self.first_station.max(STATION_END);
        let n = self.first_missing(plan).unwrap_or(past);
        not_installed(plan, self.crate_no, n)
    }

    /// Whether a command is declared all over it.
    #[tactic(auto, using(camac_check_known::proofs::Walks::all_found))]
    pub fn is_declared(self, plan: &Plan, f: Function) -> bool
        ensures { result ≡ is_declared plan.now f self }
    {
        self.is_empty()
            || (self.last_station < STATION_END && self.first_undeclared(plan, f).is_none())
    }

    fn first_undeclared(self, plan: &Plan, f: Function) -> Option<u32>
        ensures { result ≡ first_failing (declared_at plan.now f self) self.first_station (count_below station_end (stations_of self)) }
    {
        first_failing(
            self.first_station,
            end_of(self.last_station, STATION_END),
            |n| { declared_at(plan, f, self, n) },
        )
    }

    /// Its first address that has not the command.
    pub fn undeclared(self, plan: &Plan, f: Function) -> Case
        ensures { result ≡ undeclared_over plan.now f self }
    {
        let past = self.first_station.max(STATION_END);
        let n = self.first_undeclared(plan, f).unwrap_or(past);
        let (first, last) = self.sub_addresses_at(n);
        undeclared_at(plan, f, first, last, self.crate_no, n)
    }

    /// The most cycles of a scan of at most so many words: each Q=0 goes on to the next station.
    pub fn cycles(self, most: u32) -> u64
        ensures { result ≡ scan_cycles self most }
    {
        if most == 0 {
            return 0;
        }
        let stations = u64::from(self.last_station).saturating_sub(u64::from(self.first_station));
        self.size().min(u64::from(most) + stations + 1)
    }

    /// The most words that such a scan keeps.
    pub fn kept(self, most: u32) -> u32
        ensures { result ≡ scan_kept self most }
    {
        let kept = u64::from(most).min(self.size());
        kept as u32
    }

    // How many addresses it has.
    fn size(self) -> u64
        ensures { result ≡ window_size self }
    {
        let end = u64::from(self.last_station) * 16 + u64::from(self.last_sub_address) + 1;
        let begin = u64::from(self.first_station) * 16 + u64::from(self.first_sub_address);
        end.saturating_sub(begin)
    }

    fn is_empty(self) -> bool
        ensures { result ≡ is_empty self }
    {
        self.last_station < self.first_station
            || (self.first_station == self.last_station
                && self.last_sub_address < self.first_sub_address)
    }

    // Its sub-addresses at one of its stations, if it has any.
    fn sub_addresses_at(self, n: u32) -> (u32, u32)
        ensures first { result.0 ≡ (sub_addresses_at self n).lo }
        ensures last { result.1 ≡ (sub_addresses_at self n).hi }
    {
        let first = if n == self.first_station {
            self.first_sub_address
        } else {
            0
        };
        let last = if n == self.last_station {
            self.last_sub_address
        } else {
            15
        };
        (first, last)
    }
}

/// Whether two registers hold addresses of one crate.
pub fn is_one_crate(g: Region, h: Region) -> bool
    ensures { result ≡ is_one_crate g h }
{
    let first = g.crates();
    let last = h.crates();
    first.lo() == first.hi() && last.lo() == last.hi() && first.lo() == last.lo()
}

/// Whether a register holds sub-addresses alone that there are.
pub fn has_sub_addresses(g: Region) -> bool
    ensures { result ≡ has_sub_addresses g }
{
    g.sub_addresses().hi() < 16
}

fn installed_at(plan: &Plan, w: Window, n: u32) -> bool
    requires { n < 32 }
    ensures { result ≡ installed_at plan.now w n }
{
    let (first, last) = w.sub_addresses_at(n);
    last < first || has_station(plan, w.crate_no, n)
}

#[tactic(auto, using(camac_check_known::proofs::Walks::no_crate))]
fn has_station(plan: &Plan, c: u32, n: u32) -> bool
    requires { n < 32 }
    ensures { result ≡ has_station plan.now c n }
{
    match CrateNo::new(c) {
        Some(crate_no) => plan.waits(crate_no).is_some() && is_station(plan, crate_no, n),
        None => false,
    }
}

fn declared_at(plan: &Plan, f: Function, w: Window, n: u32) -> bool
    ensures { result ≡ declared_at plan.now f w n }
{
    let (first, last) = w.sub_addresses_at(n);
    match Range::new(first, last) {
        None => true,
        Some(subs) => is_declared(plan, f, subs, w.crate_no, n),
    }
}
