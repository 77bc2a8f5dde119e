//! Paths of files that the tests make.

use std::path::PathBuf;
use std::test::Fail;
use std::{env, fs, process};

/// The path of a file of this name in the folder for temporary files, where nothing is left.
pub fn fresh_path(rt: &HostRuntime, name: &str) -> Result<PathBuf, Fail> {
    let mut path = env::temp_dir(rt)?;
    path.push(format!(in rt.alloc(); "rs_disk_{}_{name}", process::id(rt.process()))?.as_str())?;
    let _ = fs::remove_file(rt, path.as_str());
    Ok(path)
}
