//! These laws say that a change keeps what versions before it mean, and that the next version begins as the present one.

ghost use Rattle.std.specs.Prelude.{◌≡◌, ◌≤◌, ◌<◌, ◌+◌, ℕ};
ghost use Rattle.rs_versioned.specs.TheConstants.{LIVING};
ghost use Rattle.rs_file.specs.Contents.{Contents, HoldsAll};
ghost use Rattle.rs_machine.specs.State.{State};
ghost use Rattle.rs_pages.specs.PageMap.{PageMap};
ghost use Rattle.rs_file_meaning.specs.Changed.{HaveOwnNumbers};
ghost use Rattle.rs_file_meaning.specs.Live.{KeepsLive, KeepsRecords};
ghost use Rattle.rs_file_meaning.specs.Meant.{IsMeant};
ghost use Rattle.rs_file_meaning.specs.Seen.{referents_seen, spans_seen};
ghost use Rattle.rs_file_meaning.specs.States.{IsState, IsStateAt, world_at};

/// A change keeps what live versions mean: where they see the same and the new version is meant, the contents are meant from the
/// oldest version on. Where no version is new and definitions stay, as where records are cleared, this needs no more.
pub fn change_keeps_the_meaning_of_earlier_versions()
    ensures next { (oldest : ℕ) (old now : Contents) → IsMeant oldest old → KeepsLive oldest old now → IsMeant now.directory.accepted now
        → now.directory.accepted ≤ old.directory.accepted + 1 → HaveOwnNumbers old.definitions.tables → HaveOwnNumbers now.definitions.tables
        → IsMeant oldest now }
    ensures records { (oldest : ℕ) (old now : Contents) → IsMeant oldest old → KeepsRecords oldest old now
        → now.directory.accepted ≡ old.directory.accepted → IsMeant oldest now }
{}

/// Until something changes, the next version sees what the present one sees, and its state differs in the count of changes alone.
pub fn next_version_begins_as_the_present_one()
    ensures spans { (pages : PageMap) (contents : Contents) (version : ℕ) → HoldsAll pages contents
        → contents.directory.accepted ≤ version → version < LIVING → (table route : ℕ)
        → spans_seen contents version table route ≡ spans_seen contents contents.directory.accepted table route }
    ensures referents { (pages : PageMap) (contents : Contents) (version : ℕ) → HoldsAll pages contents
        → contents.directory.accepted ≤ version → version < LIVING → (route : ℕ)
        → referents_seen contents version route ≡ referents_seen contents contents.directory.accepted route }
    ensures world { (pages : PageMap) (contents : Contents) (version : ℕ) → HoldsAll pages contents
        → contents.directory.accepted ≤ version → version < LIVING
        → world_at contents version ≡ world_at contents contents.directory.accepted }
    ensures state { (pages : PageMap) (contents : Contents) (version : ℕ) → HoldsAll pages contents
        → contents.directory.accepted ≤ version → version < LIVING → (state : State)
        → IsState contents state → IsStateAt version contents (record state { changes = version }) }
{}

/// Contents that are meant stay so when the version counts on and nothing else changes.
pub fn next_version_is_meant_as_the_present_one()
    ensures { (pages : PageMap) (contents : Contents) (oldest version : ℕ) → HoldsAll pages contents → IsMeant oldest contents
        → oldest ≤ contents.directory.accepted → contents.directory.accepted ≤ version → version < LIVING
        → IsMeant oldest (record contents { directory = record contents.directory { accepted = version } }) }
{}
