//! A folder of a test's own.
use std::path::PathBuf;
use std::{env, fs, io, process};

/// Makes an empty folder for the test of this name. The test removes it.
pub(crate) fn new_folder(rt: &HostRuntime, test: &str) -> io::Result<PathBuf> {
    let name = format!(in rt.alloc(); "sq_outside-{test}-{}", process::id(rt.process()))?;
    let folder = env::temp_dir(rt)?.join(rt.alloc(), name.as_str())?;
    fs::create_dir(rt, folder.as_path())?;
    Ok(folder)
}
