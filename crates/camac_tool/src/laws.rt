// Laws, as contracts of functions that do nothing.

ghost use Rattle.std.specs.Prelude.{◌≡◌, ◌≤◌, ℕ, Bool, true, false, List, length, Option, Some, IfSome, codes};
ghost use Rattle.camac_model.specs.Sample.{sample_plan};
ghost use Rattle.camac_engines.specs.Sample.{sample};
ghost use Rattle.camac_engines.specs.declared.fault.ToolFault.{ToolFault};
ghost use Rattle.camac_engines.specs.declared.fault.ToolFault.TheVariants.{Write};
ghost use Rattle.camac_engines.specs.declared.reading.TheConstants.{EVENTS_LIMIT};
ghost use Rattle.camac_tool_host.specs.Apart.{IsApartFrom, IsTakenBy, Opens, OpensPlan, Words, is_sample};
ghost use Rattle.camac_tool_words.specs.declared.words.Job.{Job};
ghost use Rattle.camac_tool.specs.Causes.{CanBeUnread, RunCanFail};
ghost use Rattle.camac_tool.specs.Input.{HaveLong, IsLong};
ghost use Rattle.camac_tool.specs.Status.{EndsStopped};
ghost use Rattle.camac_tool_host.specs.declared.host.FileId.{FileId};

/// The sample plan is the one of the worked rows.
pub fn sample_is_of_the_rows()
    ensures { sample ≡ sample_plan }
{}

/// Where each name has one file, no input of a run reads that of EVENTS, and it is no standard output.
#[tactic(auto, using(crate::proofs::Caused::none_is))]
pub fn events_is_no_input()
    ensures { (has : List ℕ → Option FileId → Bool) (reads : ℕ → FileId → Bool) (w : Words) (p : Option ℕ) (s a : ℕ) (file : FileId)
        → ((name : List ℕ) (x y : Option FileId) → has name x ≡ true → has name y ≡ true → x ≡ y)
        → OpensPlan (λ name x. has name x ≡ true) (λ i f. reads i f ≡ true) w.plan p → Opens (λ name x. has name x ≡ true) (λ f. reads s f ≡ true) w.script
        → Opens (λ name x. has name x ≡ true) (λ f. reads a f ≡ true) w.answers → IsApartFrom (λ name x. has name x ≡ true) w
        → has w.events (Some file) ≡ true
        → (is_sample w.plan ≡ false → IfSome p (λ i. reads i file ≡ false)) × (reads s file ≡ false) × (reads a file ≡ false)
        × (has (codes "/proc/self/fd/1") (Some file) ≡ false) × (has (codes "/proc/self/fd/2") (Some file) ≡ false) }
{}

/// Where no call of its output or of the host failed, a run has a cause for a write fault only if EVENTS is the file of an input or of a standard output.
#[tactic(auto, using(crate::proofs::Caused::other_cause))]
pub fn write_faults_have_causes()
    ensures { (has : List ℕ → Option FileId → Bool) (w : Words) → RunCanFail (λ name x. has name x ≡ true) false w false → IsTakenBy (λ name x. has name x ≡ true) w }
{}

/// Where no call of the host fails, no job has a cause for a read fault.
#[tactic(auto, using(crate::proofs::Caused::none_unread))]
pub fn read_faults_have_causes()
    ensures { (job : Job) → CanBeUnread false job → ⊥ }
{}

/// Where the input of each word has at most a megabyte, no job has a cause for the fault of an input that is too long.
pub fn long_faults_have_causes()
    ensures texts { (bytes_of : List ℕ → Option (List ℕ)) (plan script : List ℕ) → ((word : List ℕ) → (text : List ℕ) × (bytes_of word ≡ Some text) × (length text ≤ 1048576))
        → HaveLong bytes_of plan script → ⊥ }
    ensures events { (bytes_of : List ℕ → Option (List ℕ)) (file : List ℕ) → ((word : List ℕ) → (text : List ℕ) × (bytes_of word ≡ Some text) × (length text ≤ 1048576))
        → IsLong EVENTS_LIMIT (bytes_of file) → ⊥ }
{}

/// Status 141 tells of a write fault alone.
#[tactic(auto, using(crate::proofs::Caused::of_pipe))]
pub fn pipes_are_of_write_faults()
    ensures { (fault : ToolFault) → EndsStopped fault 141 → fault ≡ Write }
{}
