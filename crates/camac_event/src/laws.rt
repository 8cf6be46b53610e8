// Laws of the spelling.

ghost use Rattle.std.specs.Prelude.{◌≡◌, Ok, List};
ghost use Rattle.camac_event.specs.Spelling.{Entry, spelling, AreEvents};
ghost use Rattle.camac_event.specs.Reading.{file_at};
ghost use Rattle.camac_event.specs.Broken.{FieldsSpell, FileFaultsStand};
ghost use Rattle.camac_event.specs.declared.event.Version.{Version};

/// What a list of events is spelled as reads back as that list: decoding what was encoded gives what was encoded.
#[tactic(auto, using(crate::proofs::Files::file_again))]
pub fn spelling_reads_back()
    ensures { (version : Version) (events : List Entry) → AreEvents version events → file_at (spelling version events) ≡ Ok (version, events) }
{}

/// No two lists of events have the same bytes, also where they differ in their version alone.
#[tactic(auto, using(crate::proofs::Files::spelling_one))]
pub fn spelling_is_one()
    ensures { (version other : Version) (events others : List Entry) → AreEvents version events → AreEvents other others
        → spelling version events ≡ spelling other others → (version ≡ other) × (events ≡ others) }
{}

/// The fields of a file, one after the other, are its spelling.
#[tactic(auto, using(crate::proofs::Reached::fields_spell))]
pub fn fields_spell()
    ensures { FieldsSpell }
{}

/// Where a file is refused: up to the offset its bytes are whole fields of right events, and no right file has whole fields in common with it
/// beyond. The rule is that of the field that would stand there, or that the file ends inside it.
#[tactic(auto, using(crate::proofs::Furthest::file_faults_stand))]
pub fn file_faults_stand()
    ensures { FileFaultsStand }
{}
