// A list so far.

ghost use Rattle.std.specs.Prelude.{◌≡◌, ◌<◌, [], ◌∷◌, ◌++◌, if◌then◌else◌};
ghost use Rattle.arrayvec.specs.ArrayVec.{array_vec_len};
ghost use Rattle.camac_lang.specs.declared.word.WordSize.TheVariants.{Full};
ghost use Rattle.camac_run.specs.Ahead.{releases_first};
ghost use Rattle.camac_run.specs.declared.member.Member.TheVariants.{Block, Makes, Release};
ghost use Rattle.camac_run.specs.declared.progress.Wanted.TheVariants.{Lock};

use crate::member::Member;
use crate::progress::Wanted;
use crate::transfer::ReadBlock;
use arrayvec::ArrayVec;
use camac_lang::WordSize;
use camac_word::CrateNo;

/// The most members of a list.
pub const AHEAD: usize = 64;

/// How many steps are looked ahead at most.
const STEPS: u32 = 512;

/// What comes next, whatever is answered.
pub type Ahead = ArrayVec<Member, AHEAD>;

/// The members of a list so far, and how many steps are looked ahead after them at most.
#[derive(Drop)]
pub struct Coming {
    pub ahead: Ahead,
    pub steps: u32,
    /// Whether blocks and releases are members, too.
    pub far: bool,
}

impl Coming {
    /// No member yet.
    pub fn nothing(far: bool) -> Coming
        ensures { result.ahead.items ≡ [] }
    {
        Coming {
            ahead: Ahead::new(),
            steps: STEPS,
            far,
        }
    }

    /// Begins anew.
    pub fn begin(&mut self, far: bool)
        ensures { self.new.ahead.items ≡ [] }
    {
        self.ahead.clear();
        self.steps = STEPS;
        self.far = far;
    }

    /// Makes so many steps, if that many are left.
    pub fn step(&mut self, steps: usize) -> bool
        ensures { self.new ≡ record self.old { steps = self.new.steps } }
    {
        if steps > self.steps as usize {
            return false;
        }
        self.steps -= steps as u32;
        true
    }

    // Adds a member. All kinds of them are matched, since the prover wants their types among the function's own.
    fn push(&mut self, member: Member)
        requires { array_vec_len self.old.ahead < 64 }
        ensures { self.new.ahead.items ≡ self.old.ahead.items ++ member ∷ [] }
    {
        match member {
            Member::Makes(wanted, size) => match wanted {
                Wanted::Demand => self.ahead.push(Member::Makes(Wanted::Demand, size)),
                Wanted::Cycle(k) => self.ahead.push(Member::Makes(Wanted::Cycle(k), size)),
                Wanted::Lock(c) => self.ahead.push(Member::Makes(Wanted::Lock(c), size)),
            },
            Member::Block(block) => self.ahead.push(Member::Block(block)),
            Member::Release(c) => self.ahead.push(Member::Release(c)),
        }
    }

    /// Takes the lock of a crate.
    pub fn lock(&mut self, c: CrateNo)
        requires { array_vec_len self.old.ahead < 64 }
        ensures { self.new.ahead.items ≡ self.old.ahead.items ++ Makes (Lock c) Full ∷ [] }
    {
        self.push(Member::Makes(Wanted::Lock(c), WordSize::Full));
    }

    /// Releases it, if the list goes on so far. Answers whether it does.
    pub fn release(&mut self, c: CrateNo) -> bool
        ensures { self.new.ahead.items ≡ self.old.ahead.items ++ (if result then Release c ∷ [] else []) }
    {
        if !self.far || self.ahead.is_full() || !self.step(1) {
            return false;
        }
        self.push(Member::Release(c));
        true
    }

    /// Makes a transfer, if the list goes on so far. Answers whether it does. Its last cycle is a step before what comes next.
    pub fn transfer(&mut self, block: ReadBlock) -> bool
        ensures { self.new.ahead.items ≡ self.old.ahead.items ++ (if result then Block block ∷ [] else []) }
    {
        if !self.far || self.ahead.is_full() || !self.step(1) {
            return false;
        }
        self.push(Member::Block(block));
        true
    }
}

/// Whether a release comes first.
pub fn releases_first(members: &[Member]) -> bool
    ensures { result ≡ releases_first members.now }
{
    match members {
        [Member::Release(_), ..] => true,
        _ => false,
    }
}
