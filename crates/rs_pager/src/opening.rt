//! How a pager comes to be: over an empty disk, and over one that holds a file; how it reads page 0 anew, and the open flag.
//!
//! A file of version 2 is recovered as it is opened: a checkpoint that a crash cut short is ended. One of version 1 is only read, and the
//! next checkpoint makes it one of version 2. A refusal hands the disk back.

ghost use Rattle.std.specs.Prelude.{◌≡◌, ◌≢◌, ◌<◌, ◌≤◌, ◌*◌, ◌⊎◌, [], true, false, IsTrue, IfOk, IfErr, OnOk, IsOkUnless, MatchResult, IfSome, IfNone, Err};
ghost use Rattle.rs_disk.specs.Content.{Holds, KeepsOthers};
ghost use Rattle.rs_disk.specs.Crash.{Only, Same};
ghost use Rattle.rs_disk.specs.Counts.{Counts};
ghost use Rattle.rs_disk.specs.Reaches.{Reaches};
ghost use Rattle.rs_journal.specs.FilePages.{FilePages};
ghost use Rattle.rs_journal.specs.Journal.{Recovers};
ghost use Rattle.rs_journal.specs.Look.{shown};
ghost use Rattle.rs_journal.specs.Recovery.{CallsOrDamaged, Recovered, SaysCount};
ghost use Rattle.rs_journal.specs.declared.limits.TheConstants.{GATE, OPEN};
ghost use Rattle.rs_page.specs.declared.file_header.FileHeader.{FileHeader};
ghost use Rattle.rs_page_cache.specs.Stored.{disk_page};
ghost use Rattle.rs_pages.specs.PageMap.{SamePages};
ghost use Rattle.rs_journal.specs.declared.stage.Stage.TheVariants.{Fresh};
ghost use Rattle.rs_pager.specs.Maps.{committed, working, HoldsNoChange, IsTied, KeepsBelow, KeepsChanges, KeepsMaps};
ghost use Rattle.rs_pager.specs.Opened.{IsFresh, HasEmptyFile, IsCreated, IsOpened, CountsFault};
ghost use Rattle.rs_pager.specs.Opening.{FitsFirst, FitsSecond, HasFirst, IsNoSecond, RecoversFields};
ghost use Rattle.rs_pager.specs.SecondHeader.{IsSecondHeader};
ghost use Rattle.rs_pager.specs.Versions.{IsNoFile};

use crate::pager::Pager;
use crate::second_header::{read_first_header, read_second_header, second_page};
use rs_disk::Disk;
use rs_journal::{Looked, recover};
use rs_page::{FLAG_OFFSET, FileHeader, PAGE_SIZE, Page, PageKind, PageNumber};
use rs_page_cache::{Changes, CleanPages};
use rs_page_copies::UnderWay;
use rs_pages::{GREATEST_LIMIT, LEAST_LIMIT};
use rs_refusal::Refusal;
use std::alloc::{AllocError, Global};

/// What a pager holds in memory of its own, apart from pages.
#[derive(Drop)]
struct Room {
    clean: CleanPages,
    under_way: UnderWay,
}

impl<D: Disk> Pager<D> {
    /// Makes the pages of an empty file of version 2, page 0 and the directory, writes them, and syncs. What the disk held goes: it is two
    /// pages long then. `limit` is the greatest number of pages. A refusal (90, 91) hands the disk back: untouched after 90, with any part
    /// of this done after 91.
    pub fn create(alloc: Global, disk: D, limit: u32) -> Result<Pager<D>, (D, Refusal)>
        requires least { LEAST_LIMIT ≤ limit }
        requires greatest { limit ≤ GREATEST_LIMIT }
        ensures fresh { IfOk result (IsFresh limit) }
        ensures shown { IfOk result (λ pager. pager.is_header_changed ≡ false) }
        ensures same { IfOk result (λ pager. SamePages (working D.Disk pager) (committed D.Disk pager)) }
        ensures created { IsTrue (D.is_honest disk) → IfOk result (IsCreated D.Disk) }
        ensures refused { IfErr result (λ refused.
            (refused.1 ≡ Refusal.OutOfMemory) ⊎ (refused.1 ≡ Refusal.Disk)) }
        ensures count { MatchResult result (λ pager. D.failures pager.disk ≡ D.failures disk)
            (λ refused. CountsFault refused.1 (D.failures disk) (D.failures refused.0)) }
        ensures honesty { MatchResult result (λ pager. D.is_honest pager.disk ≡ D.is_honest disk)
            (λ refused. D.is_honest refused.0 ≡ D.is_honest disk) }
        ensures keeping { MatchResult result (λ pager. D.keeps_crashes pager.disk ≡ D.keeps_crashes disk)
            (λ refused. D.keeps_crashes refused.0 ≡ D.keeps_crashes disk) }
        ensures untouched { IfErr result (λ refused. refused.1 ≡ Refusal.OutOfMemory → refused.0 ≡ disk) }
    {
        let room = match room_of(alloc) {
            Ok(room) => room,
            Err(_) => return Err((disk, Refusal::OutOfMemory)),
        };
        let mut disk = disk;
        match write_empty_file(&mut disk) {
            Ok(()) => Ok(new_pager(alloc, disk, limit, room, FileHeader::empty(), false)),
            Err(refusal) => Err((disk, refusal)),
        }
    }

    /// Opens the file that the disk holds, and reads page 0 alone of its pages. `limit` is the greatest number of pages. It begins with
    /// reads; a sync comes before anything is written.
    ///
    /// A file of version 2 is recovered where its gate is open, but only where page 0, as the journal gives it, is a header whose count is
    /// within the limit and the disk: nothing is brought home in what is no such file. A file of version 1 is only read; the pager has
    /// a page 0 of version 2 for it, which the disk lacks. It is refused with 94 where the disk holds neither, and then nothing was
    /// written. A refusal (90, 91, 94) hands the disk back.
    pub fn open(alloc: Global, disk: D, limit: u32) -> Result<Pager<D>, (D, Refusal)>
        requires least { LEAST_LIMIT ≤ limit }
        requires greatest { limit ≤ GREATEST_LIMIT }
        ensures fresh { IfOk result (IsFresh limit) }
        ensures same { IfOk result (λ pager. SamePages (working D.Disk pager) (committed D.Disk pager)) }
        ensures opened { IsTrue (D.is_honest disk) → IfOk result (IsOpened D.Disk (D.seen disk)) }
        ensures refused { IfErr result (λ refused. (refused.1 ≡ Refusal.OutOfMemory)
            ⊎ (refused.1 ≡ Refusal.Disk) ⊎ (refused.1 ≡ Refusal.DamagedFile)) }
        ensures damaged { IsTrue (D.is_honest disk)
            → IfErr result (λ refused. refused.1 ≡ Refusal.DamagedFile → IsNoFile (D.seen disk) limit) }
        ensures left { IsTrue (D.is_honest disk)
            → IfErr result (λ refused. refused.1 ≡ Refusal.DamagedFile → Reaches D.Disk Same disk refused.0) }
        ensures shut { IsTrue (D.is_honest disk) → (D.seen disk).byte GATE ≢ OPEN
            → MatchResult result (λ pager. Reaches D.Disk Same disk pager.disk) (λ refused. Reaches D.Disk Same disk refused.0) }
        ensures recovers { (pages : FilePages) → IsTrue (D.is_honest disk) → SaysCount pages → Recovers (D.seen disk) pages
            → MatchResult result (λ pager. Recovered D.Disk pages result disk pager.disk) (λ refused. Recovered D.Disk pages result disk refused.0) }
        ensures count { MatchResult result (λ pager. D.failures pager.disk ≡ D.failures disk)
            (λ refused. CountsFault refused.1 (D.failures disk) (D.failures refused.0)) }
        ensures honesty { MatchResult result (λ pager. D.is_honest pager.disk ≡ D.is_honest disk)
            (λ refused. D.is_honest refused.0 ≡ D.is_honest disk) }
        ensures keeping { MatchResult result (λ pager. D.keeps_crashes pager.disk ≡ D.keeps_crashes disk)
            (λ refused. D.keeps_crashes refused.0 ≡ D.keeps_crashes disk) }
        ensures untouched { IfErr result (λ refused. refused.1 ≡ Refusal.OutOfMemory → IsTrue (D.is_honest disk) → Reaches D.Disk Same disk refused.0) }
    {
        let room = match room_of(alloc) {
            Ok(room) => room,
            Err(_) => return Err((disk, Refusal::OutOfMemory)),
        };
        let mut disk = disk;
        match read_first_fields(&mut disk, limit) {
            Ok(Some(fields)) => Ok(new_pager(alloc, disk, limit, room, fields, true)),
            Ok(None) => {
                let (disk, fields) = recovered_fields(alloc, disk, limit)?;
                Ok(new_pager(alloc, disk, limit, room, fields, false))
            }
            Err(refusal) => Err((disk, refusal)),
        }
    }
}

impl<D: Disk> Pager<D> {
    /// Reads page 0 anew. It is refused with 91, and with 94 where page 0 says other fields than the committed ones, or the disk is
    /// shorter than they say. Whatever is answered, both maps and all that is held stay, and nothing is written.
    pub fn check_first_page(&mut self) -> Result<(), Refusal>
        ensures keeps { KeepsMaps D.Disk self.old self.new }
        ensures below { KeepsBelow D.Disk self.old self.new }
        ensures changes { KeepsChanges self.old self.new }
        ensures begun { self.new.is_begun ≡ self.old.is_begun }
        ensures clean { self.new.clean ≡ self.old.clean }
        ensures refused { IfErr result (λ refusal. (refusal ≡ Refusal.Disk) ⊎ (refusal ≡ Refusal.DamagedFile)) }
        ensures sound { IsTied D.Disk self.old → HoldsNoChange self.old → result ≢ Err Refusal.DamagedFile }
        ensures count { MatchResult result (λ _. D.failures self.new.disk ≡ D.failures self.old.disk)
            (λ refusal. CountsFault refusal (D.failures self.old.disk) (D.failures self.new.disk)) }
    {
        let fields = read_second_fields(&mut self.disk, self.limit)?;
        if fields != self.committed_fields {
            return Err(Refusal::DamagedFile);
        }
        Ok(())
    }

    /// The byte that says in a file of version 1 whether it was left open, as the disk has it: 0 where it was closed, and in each file of
    /// version 2. It is refused with 91 alone. Nothing is written.
    pub fn open_flag(&mut self) -> Result<u8, Refusal>
        ensures flag { IsTrue (D.is_honest self.old.disk)
            → IfOk result (λ flag. flag ≡ (D.seen self.old.disk).byte FLAG_OFFSET) }
        ensures keeps { KeepsMaps D.Disk self.old self.new }
        ensures below { KeepsBelow D.Disk self.old self.new }
        ensures changes { KeepsChanges self.old self.new }
        ensures begun { self.new.is_begun ≡ self.old.is_begun }
        ensures refusal { IsOkUnless result Refusal.Disk }
        ensures count { Counts result (D.failures self.old.disk) (D.failures self.new.disk) }
    {
        let mut flag = [0];
        self.disk
            .read(FLAG_OFFSET as u64, &mut flag)
            .map_err(|_| Refusal::Disk)?;
        Ok(flag[0])
    }
}

/// Memory for clean pages and for a checkpoint.
fn room_of(alloc: Global) -> Result<Room, AllocError>
    ensures clean { IfOk result (λ room. room.clean ≡ []) }
    ensures stage { IfOk result (λ room. room.under_way.stage ≡ Fresh) }
{
    let clean = CleanPages::new(alloc)?;
    let under_way = UnderWay::new(alloc)?;
    Ok(Room { clean, under_way })
}

/// The pager over a disk that has all the pages of these fields, but for page 0 where that is changed.
fn new_pager<D: Disk>(
    alloc: Global,
    disk: D,
    limit: u32,
    room: Room,
    fields: FileHeader,
    is_header_changed: bool,
) -> Pager<D>
    requires empty { room.clean ≡ [] }
    requires stage { room.under_way.stage ≡ Fresh }
    requires least { 2 ≤ fields.pages }
    requires within { fields.pages ≤ limit }
    requires greatest { limit ≤ GREATEST_LIMIT }
    ensures fresh { IsFresh limit result }
    ensures disk { result.disk ≡ disk }
    ensures committed_fields { result.committed_fields ≡ fields }
    ensures lacks { result.is_header_changed ≡ is_header_changed }
{
    let working = fields;
    let Room { clean, under_way } = room;
    Pager {
        disk,
        limit,
        changes: Changes::new(alloc),
        clean,
        committed_fields: fields,
        working,
        is_header_changed,
        is_begun: false,
        full_refusals: 0,
        under_way,
    }
}

/// Writes the pages of an empty file in place of all that the disk holds, and syncs.
fn write_empty_file<D: Disk>(disk: &mut D) -> Result<(), Refusal>
    ensures written { IsTrue (D.is_honest disk.old) → OnOk result (HasEmptyFile (D.seen disk.new)) }
    ensures durable { IsTrue (D.keeps_crashes disk.old) → OnOk result (Only (D.seen disk.new) (D.may_leave disk.new)) }
    ensures honesty { D.is_honest disk.new ≡ D.is_honest disk.old }
    ensures keeping { D.keeps_crashes disk.new ≡ D.keeps_crashes disk.old }
    ensures refused { IsOkUnless result Refusal.Disk }
    ensures count { Counts result (D.failures disk.old) (D.failures disk.new) }
{
    disk.cut(0).map_err(|_| Refusal::Disk)?;
    let directory = Page::blank(PageKind::Directory, PageNumber::new(1), PageNumber::new(0));
    write_page(disk, 1, &directory)?;
    write_page(disk, 0, &second_page(&FileHeader::empty()))?;
    disk.sync().map_err(|_| Refusal::Disk)
}

/// Writes a page where it lies.
fn write_page<D: Disk>(disk: &mut D, number: u32, page: &Page) -> Result<(), Refusal>
    requires { number < GREATEST_LIMIT }
    ensures written { IsTrue (D.is_honest disk.old) → OnOk result (Holds (D.seen disk.new) (PAGE_SIZE * number) page.now.bytes) }
    ensures others { IsTrue (D.is_honest disk.old) → KeepsOthers (PAGE_SIZE * number) PAGE_SIZE (D.seen disk.old) (D.seen disk.new) }
    ensures honesty { D.is_honest disk.new ≡ D.is_honest disk.old }
    ensures keeping { D.keeps_crashes disk.new ≡ D.keeps_crashes disk.old }
    ensures refused { IsOkUnless result Refusal.Disk }
    ensures count { Counts result (D.failures disk.old) (D.failures disk.new) }
{
    disk.write(u64::from(number) * PAGE_SIZE as u64, &page.bytes)
        .map_err(|_| Refusal::Disk)
}

/// Reads page 0.
fn read_first_page<D: Disk>(disk: &mut D) -> Result<Page, Refusal>
    ensures bytes { IsTrue (D.is_honest disk.old)
        → IfOk result (λ page. page.bytes ≡ disk_page (D.seen disk.old) 0) }
    ensures reaches { Reaches D.Disk Same disk.old disk.new }
    ensures refused { IsOkUnless result Refusal.Disk }
    ensures count { Counts result (D.failures disk.old) (D.failures disk.new) }
{
    let mut page = Page::new();
    match disk.read(0, &mut page.bytes) {
        Ok(()) => Ok(page),
        Err(_) => Err(Refusal::Disk),
    }
}

/// Reads page 0 of a file of version 1, and syncs; none where page 0 is no header of version 1. It is refused with 94 where the header
/// counts more pages than the limit or the disk has. Nothing is written.
fn read_first_fields<D: Disk>(disk: &mut D, limit: u32) -> Result<Option<FileHeader>, Refusal>
    requires { limit ≤ GREATEST_LIMIT }
    ensures found { IsTrue (D.is_honest disk.old) → IfOk result (λ fields. IfSome fields (FitsFirst limit (D.seen disk.old))) }
    ensures durable { IsTrue (D.keeps_crashes disk.old) → IfOk result (λ fields. IfSome fields (λ _. Only (D.seen disk.new) (D.may_leave disk.new))) }
    ensures none { IsTrue (D.is_honest disk.old) → IfOk result (λ fields. IfNone fields (HasFirst (D.seen disk.old) → ⊥)) }
    ensures damaged { IsTrue (D.is_honest disk.old) → result ≡ Err Refusal.DamagedFile → IsNoFile (D.seen disk.old) limit }
    ensures least { IfOk result (λ fields. IfSome fields (λ header. 2 ≤ header.pages)) }
    ensures within { IfOk result (λ fields. IfSome fields (λ header. header.pages ≤ limit)) }
    ensures reaches { Reaches D.Disk Same disk.old disk.new }
    ensures refused { IfErr result (λ refusal. (refusal ≡ Refusal.Disk) ⊎ (refusal ≡ Refusal.DamagedFile)) }
    ensures count { MatchResult result (λ _. D.failures disk.new ≡ D.failures disk.old)
        (λ refusal. CountsFault refusal (D.failures disk.old) (D.failures disk.new)) }
{
    let page = read_first_page(disk)?;
    let Some(fields) = read_first_header(&page.bytes) else {
        return Ok(None);
    };
    if fields.pages < 2 || fields.pages > limit || fields.pages > disk.pages() {
        return Err(Refusal::DamagedFile);
    }
    disk.sync().map_err(|_| Refusal::Disk)?;
    Ok(Some(fields))
}

/// Recovers a file of version 2, and reads page 0. It is refused with 94, and then nothing was written: page 0, as an open gate's journal
/// gives it, has to be a header first. A refusal (90, 91, 94) hands the disk back.
fn recovered_fields<D: Disk>(
    alloc: Global,
    disk: D,
    limit: u32,
) -> Result<(D, FileHeader), (D, Refusal)>
    requires { limit ≤ GREATEST_LIMIT }
    ensures found { IsTrue (D.is_honest disk) → IfOk result (λ made. RecoversFields D.Disk limit disk made.0 made.1) }
    ensures least { IfOk result (λ made. 2 ≤ made.1.pages) }
    ensures within { IfOk result (λ made. made.1.pages ≤ limit) }
    ensures damaged { IsTrue (D.is_honest disk) → IfErr result (λ refused. refused.1 ≡ Refusal.DamagedFile → IsNoSecond (D.seen disk) limit) }
    ensures left { IsTrue (D.is_honest disk) → IfErr result (λ refused. (refused.1 ≡ Refusal.DamagedFile) ⊎ (refused.1 ≡ Refusal.OutOfMemory) → Reaches D.Disk Same disk refused.0) }
    ensures shut { IsTrue (D.is_honest disk) → (D.seen disk).byte GATE ≢ OPEN
        → MatchResult result (λ made. Reaches D.Disk Same disk made.0) (λ refused. Reaches D.Disk Same disk refused.0) }
    ensures recovers { (pages : FilePages) → IsTrue (D.is_honest disk) → SaysCount pages → Recovers (D.seen disk) pages
        → MatchResult result (λ made. Recovered D.Disk pages result disk made.0) (λ refused. Recovered D.Disk pages result disk refused.0) }
    ensures refused { IfErr result (λ refused. (refused.1 ≡ Refusal.OutOfMemory)
        ⊎ (refused.1 ≡ Refusal.Disk) ⊎ (refused.1 ≡ Refusal.DamagedFile)) }
    ensures count { MatchResult result (λ made. D.failures made.0 ≡ D.failures disk)
        (λ refused. CountsFault refused.1 (D.failures disk) (D.failures refused.0)) }
    ensures honesty { MatchResult result (λ made. D.is_honest made.0 ≡ D.is_honest disk)
        (λ refused. D.is_honest refused.0 ≡ D.is_honest disk) }
    ensures keeping { MatchResult result (λ made. D.keeps_crashes made.0 ≡ D.keeps_crashes disk)
        (λ refused. D.keeps_crashes refused.0 ≡ D.keeps_crashes disk) }
{
    let mut look = Looked::new(alloc, disk)?;
    if let Err(refusal) = check_shown(&mut look, limit) {
        return Err((look.into_disk(), refusal));
    }
    let mut disk = look.into_disk();
    match recover_fields(&mut disk, limit) {
        Ok(fields) => Ok((disk, fields)),
        Err(refusal) => Err((disk, refusal)),
    }
}

/// Checks page 0 as it will stand after recovery: it is refused with 94 where that is no header of version 2 that fits, and with 91. The
/// disk is only read.
fn check_shown<D: Disk>(look: &mut Looked<D>, limit: u32) -> Result<(), Refusal>
    requires { limit ≤ GREATEST_LIMIT }
    ensures fits { IsTrue (D.is_honest look.old.disk) → OnOk result ((fields : FileHeader) × FitsSecond limit (shown (D.seen look.old.disk)) fields) }
    ensures damaged { IsTrue (D.is_honest look.old.disk) → result ≡ Err Refusal.DamagedFile
        → (fields : FileHeader) → FitsSecond limit (shown (D.seen look.old.disk)) fields → ⊥ }
    ensures reaches { Reaches D.Disk Same look.old.disk look.new.disk }
    ensures refused { IfErr result (λ refusal. (refusal ≡ Refusal.Disk) ⊎ (refusal ≡ Refusal.DamagedFile)) }
    ensures count { MatchResult result (λ _. D.failures look.new.disk ≡ D.failures look.old.disk)
        (λ refusal. CountsFault refusal (D.failures look.old.disk) (D.failures look.new.disk)) }
{
    let mut page = Page::new();
    look.read(0, &mut page.bytes).map_err(|_| Refusal::Disk)?;
    match fitting_fields(&page, limit, look.pages()) {
        Some(_) => Ok(()),
        None => Err(Refusal::DamagedFile),
    }
}

/// Ends the checkpoint that a crash may have cut short, and reads page 0. It is refused with 91, and with 94 where no pages that fit are
/// given.
fn recover_fields<D: Disk>(disk: &mut D, limit: u32) -> Result<FileHeader, Refusal>
    requires { limit ≤ GREATEST_LIMIT }
    ensures found { IsTrue (D.is_honest disk.old) → IfOk result (RecoversFields D.Disk limit disk.old disk.new) }
    ensures least { IfOk result (λ fields. 2 ≤ fields.pages) }
    ensures within { IfOk result (λ fields. fields.pages ≤ limit) }
    ensures damaged { IsTrue (D.is_honest disk.old) → result ≡ Err Refusal.DamagedFile → IsNoSecond (D.seen disk.old) limit }
    ensures shut { IsTrue (D.is_honest disk.old) → (D.seen disk.old).byte GATE ≢ OPEN → Reaches D.Disk Same disk.old disk.new }
    ensures recovers { (pages : FilePages) → IsTrue (D.is_honest disk.old) → SaysCount pages → Recovers (D.seen disk.old) pages
        → Recovered D.Disk pages result disk.old disk.new }
    ensures calls { CallsOrDamaged D.Disk result disk.old disk.new }
{
    recover(disk)?;
    read_second_fields(disk, limit)
}

/// Reads page 0 of a file of version 2, and looks at its fields and at the disk's length. It is refused with 91, and with 94 where they
/// don't fit.
fn read_second_fields<D: Disk>(disk: &mut D, limit: u32) -> Result<FileHeader, Refusal>
    requires { limit ≤ GREATEST_LIMIT }
    ensures read { IsTrue (D.is_honest disk.old) → IfOk result (FitsSecond limit (D.seen disk.old)) }
    ensures least { IfOk result (λ fields. 2 ≤ fields.pages) }
    ensures greatest { IfOk result (λ fields. fields.pages ≤ limit) }
    ensures damaged { IsTrue (D.is_honest disk.old) → result ≡ Err Refusal.DamagedFile
        → (fields : FileHeader) → FitsSecond limit (D.seen disk.old) fields → ⊥ }
    ensures reaches { Reaches D.Disk Same disk.old disk.new }
    ensures refused { IfErr result (λ refusal. (refusal ≡ Refusal.Disk) ⊎ (refusal ≡ Refusal.DamagedFile)) }
    ensures count { MatchResult result (λ _. D.failures disk.new ≡ D.failures disk.old)
        (λ refusal. CountsFault refusal (D.failures disk.old) (D.failures disk.new)) }
{
    let page = read_first_page(disk)?;
    match fitting_fields(&page, limit, disk.pages()) {
        Some(fields) => Ok(fields),
        None => Err(Refusal::DamagedFile),
    }
}

/// The fields of page 0 of version 2, where they count two pages at least, and no more than the limit and these.
fn fitting_fields(page: &Page, limit: u32, pages: u32) -> Option<FileHeader>
    ensures found { IfSome result (λ fields. IsSecondHeader page.now.bytes fields × (2 ≤ fields.pages) × (fields.pages ≤ limit) × (fields.pages ≤ pages)) }
    ensures none { IfNone result ((fields : FileHeader) → IsSecondHeader page.now.bytes fields → 2 ≤ fields.pages → fields.pages ≤ limit → fields.pages ≤ pages → ⊥) }
{
    let fields = read_second_header(&page.bytes)?;
    if fields.pages < 2 || fields.pages > limit || fields.pages > pages {
        return None;
    }
    Some(fields)
}
