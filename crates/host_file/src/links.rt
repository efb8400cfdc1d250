use std::alloc::{AllocError, Global};
use std::io;
use std::io::ErrorKind;
use std::path::{Path, PathBuf};
use std::rt::Files;

/// As many links one behind another as the system follows.
const MOST_LINKS: u32 = 40;

/// The path that a path leads to where it is a link, and then on from link to link, also to a file that isn't there
/// yet. A path that is no link leads to itself.
///
/// Where links go round in a circle or one of them can't be read, the answer is a link, on which a host fails.
pub fn without_links<R: Files>(files: &R, alloc: Global, path: &str) -> Result<String, AllocError> {
    let mut at = String::from_str(alloc, path)?;
    for _ in 0..MOST_LINKS {
        let Some(target) = target_of(files.read_link(alloc, at.as_str()))? else {
            break;
        };
        at = beside(alloc, at.as_str(), target.as_path())?;
    }
    Ok(at)
}

/// Where a link leads, or none where there is no link that can be read.
fn target_of(read: io::Result<PathBuf>) -> Result<Option<PathBuf>, AllocError> {
    match read {
        Ok(target) => Ok(Some(target)),
        Err(e) if e.kind() == ErrorKind::OutOfMemory => Err(AllocError),
        Err(_) => Ok(None),
    }
}

/// The path of a target as it is meant from the folder of a link. One that begins at the root is meant from there.
fn beside(alloc: Global, link: &str, target: Path<'_>) -> Result<String, AllocError> {
    match Path::new(link).parent() {
        Some(folder) => Ok(folder.join(alloc, target)?.into_string()),
        None => String::from_str(alloc, target.as_str()),
    }
}
