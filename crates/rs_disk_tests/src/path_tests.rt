//! What stands at a path, and who has it open.

use crate::expect::expect;
use crate::fresh_path::fresh_path;
use rs_disk::{Disk, FileDisk, OpenError};
use std::test::Fail;
use std::{env, fs, process};

/// Expects that no file is opened at a path, for this reason.
fn expect_unopened(rt: &HostRuntime, path: &str, why: OpenError) -> Result<(), Fail> {
    match FileDisk::open(rt, path) {
        Ok(_) => Err("opened".into()),
        Err(error) => expect(error == why, "why no file is opened"),
    }
}

/// Expects that no file is made at a path, for this reason.
fn expect_unmade(rt: &HostRuntime, path: &str, why: OpenError) -> Result<(), Fail> {
    match FileDisk::create(rt, path) {
        Ok(_) => Err("made".into()),
        Err(error) => expect(error == why, "why no file is made"),
    }
}

/// Whether the file at a path has this text.
fn is_text(rt: &HostRuntime, path: &str, wanted: &str) -> Result<bool, Fail> {
    Ok(fs::read_to_string(rt, path)?.as_str() == wanted)
}

#[test]
fn opening_says_what_is_there(rt: HostRuntime) -> Result<(), Fail> {
    let path = fresh_path(&rt, "opened")?;
    let path = path.as_str();
    expect_unopened(&rt, path, OpenError::Missing)?;
    fs::write(&rt, path, "kept")?;
    expect_unmade(&rt, path, OpenError::Exists)?;
    expect(is_text(&rt, path, "kept")?, "what is there is left")?;
    fs::remove_file(&rt, path)?;
    Ok(())
}

/// Expects that a file is made at a path with its folder synced, written and opened again, and made no second time.
fn expect_made(rt: &HostRuntime, path: &str) -> Result<(), Fail> {
    let mut disk = FileDisk::create_synced(rt, path)?;
    disk.write(0, b"made")?;
    drop(disk);
    expect(is_text(rt, path, "made")?, "the disk is the file's")?;
    let again = FileDisk::create_synced(rt, path).err();
    expect(again == Some(OpenError::Exists), "it is there")?;
    fs::remove_file(rt, path)?;
    Ok(())
}

#[test]
fn a_file_is_made_with_its_folder_synced(rt: HostRuntime) -> Result<(), Fail> {
    let path = fresh_path(&rt, "synced")?;
    expect_made(&rt, path.as_str())?;
    let name = format!(in rt.alloc(); "rs_disk_{}_here", process::id(rt.process()))?;
    expect_made(&rt, name.as_str())?;
    let missing = format!(in rt.alloc(); "{}/below", path.as_str())?;
    let made = FileDisk::create_synced(&rt, missing.as_str()).err();
    expect(made == Some(OpenError::CannotOpen), "no such folder")
}

#[test]
fn no_file_is_below_a_file(rt: HostRuntime) -> Result<(), Fail> {
    let path = fresh_path(&rt, "above")?;
    fs::write(&rt, path.as_str(), "kept")?;
    let below = format!(in rt.alloc(); "{}/below", path.as_str())?;
    expect_unmade(&rt, below.as_str(), OpenError::CannotOpen)?;
    expect_unopened(&rt, below.as_str(), OpenError::CannotOpen)?;
    fs::remove_file(&rt, path.as_str())?;
    Ok(())
}

#[test]
fn a_folder_is_no_file(rt: HostRuntime) -> Result<(), Fail> {
    let folder = env::temp_dir(&rt)?;
    expect_unopened(&rt, folder.as_str(), OpenError::CannotOpen)?;
    expect_unmade(&rt, folder.as_str(), OpenError::Exists)
}

#[test]
fn a_file_has_one_disk_at_a_time(rt: HostRuntime) -> Result<(), Fail> {
    let path = fresh_path(&rt, "shared")?;
    let path = path.as_str();
    let mut first = FileDisk::create(&rt, path)?;
    first.write(0, b"first")?;
    expect_unopened(&rt, path, OpenError::InUse)?;
    drop(first);
    let second = FileDisk::open(&rt, path)?;
    expect_unopened(&rt, path, OpenError::InUse)?;
    drop(second);
    expect(is_text(&rt, path, "first")?, "and the bytes stay")?;
    fs::remove_file(&rt, path)?;
    Ok(())
}
