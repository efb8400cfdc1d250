//! Real files, in the directory of temporary files.

use crate::steps::{Answers, Step, make_calls};
use host_file::{FileHost, without_links};
use host_model::{FileNo, Host};
use std::os::unix::fs::symlink;
use std::test::Fail;
use std::{env, fs, process};

/// What the file that a test isn't about holds.
const OTHER: &[u8] = b"others";

/// A path that no other process uses, and no other test.
fn own_path(rt: &HostRuntime, test: &str) -> Result<String, Fail> {
    let dir = env::temp_dir(rt)?;
    let dir = dir.display();
    let process = process::id(rt.process());
    Ok(format!(in rt.alloc(); "{dir}/host_file.{process}.{test}")?)
}

/// What calls on one of two real files answered, and what both files hold then.
#[derive(Drop)]
struct Changed {
    told: Answers,
    left: Vec<u8>,
    other: Vec<u8>,
}

/// Makes these calls on a file that holds the bytes `first`, or is missing where they are none.
fn change_file(
    rt: &HostRuntime,
    file: FileNo,
    first: &[u8],
    steps: &[Step],
) -> Result<Changed, Fail> {
    let db = own_path(rt, "changed")?;
    let images = format!(in rt.alloc(); "{db}.bi")?;
    let (path, other_path) = match file {
        FileNo::Db => (db.as_str(), images.as_str()),
        FileNo::Images => (images.as_str(), db.as_str()),
    };
    fs::write(rt, other_path, OTHER)?;
    if !first.is_empty() {
        fs::write(rt, path, first)?;
    }
    let mut host = FileHost::new(rt, rt.alloc(), db.as_str())?;
    let told = make_calls(rt.alloc(), &mut host, file, steps)?;
    let left = fs::read(rt, path)?;
    let other = fs::read(rt, other_path)?;
    fs::remove_file(rt, path)?;
    fs::remove_file(rt, other_path)?;
    Ok(Changed { told, left, other })
}

/// Calls on a file of six bytes.
const OF_A_FILE: &[Step] = &[
    Step::Len,
    Step::Read(3),
    Step::Read(u64::MAX),
    Step::Write(1, b"XY"),
    Step::Cut(4),
    Step::Sync,
    Step::Read(0),
    Step::Say(b"said\n"),
];

/// Calls on a file that is missing, of which the first write makes it.
const OF_A_MISSING_FILE: &[Step] = &[
    Step::Len,
    Step::Read(0),
    Step::Sync,
    Step::Cut(0),
    Step::Write(0, b"012345"),
    Step::Write(5, b"abc"),
    Step::Cut(7),
    Step::Len,
];

/// Calls that fail on a file which is refused, but for the sync of what is no regular file.
const ALL: [Step; 5] = [
    Step::Len,
    Step::Read(0),
    Step::Write(0, b"other"),
    Step::Cut(0),
    Step::Sync,
];

/// What calls on a file answer, and what they make of it, and that the other file stays.
#[test]
fn calls_change_the_file_that_is_named(rt: HostRuntime) -> Result<(), Fail> {
    let rows: [(&str, &[u8], &[Step], [u64; 8], &[u8], &[u8]); 2] = [
        (
            "there",
            b"blocks",
            OF_A_FILE,
            [6, 3, 0, 0, 0, 0, 4, 0],
            b"cks.....bXYc",
            b"bXYc",
        ),
        (
            "missing",
            b"",
            OF_A_MISSING_FILE,
            [0, 0, 0, 0, 0, 0, 0, 7],
            b"....",
            b"01234ab",
        ),
    ];
    for (label, first, steps, numbers, read, left) in rows {
        for file in [FileNo::Db, FileNo::Images] {
            let got = change_file(&rt, file, first, steps)?;
            assert_eq!(rt;
                got.told.numbers.as_slice(),
                numbers.map(Some).as_slice(),
                "{label}, {file:?}"
            );
            assert_eq!(rt; got.told.read.as_slice(), read, "{label}, {file:?}");
            assert_eq!(rt; got.left.as_slice(), left, "{label}, {file:?}");
            assert_eq!(rt; got.other.as_slice(), OTHER, "{label}, {file:?}");
        }
    }
    Ok(())
}

#[test]
fn calls_fail_on_a_directory(rt: HostRuntime) -> Result<(), Fail> {
    let mut host = FileHost::new(&rt, rt.alloc(), "/")?;
    let steps = [
        Step::Len,
        Step::Read(0),
        Step::Write(0, b"x"),
        Step::Cut(0),
        Step::Sync,
    ];
    let told = make_calls(rt.alloc(), &mut host, FileNo::Db, &steps)?;
    let numbers = [None, None, None, None, Some(0)];
    assert_eq!(rt; told.numbers.as_slice(), numbers.as_slice());
    Ok(())
}

/// A file is held by the host that opened it or made it, and no other host reads or changes it meanwhile.
#[test]
fn a_second_host_is_kept_out(rt: HostRuntime) -> Result<(), Fail> {
    let alloc = rt.alloc();
    let path = own_path(&rt, "locks")?;
    let images = format!(in alloc; "{path}.bi")?;
    let mut first = FileHost::new(&rt, alloc, path.as_str())?;
    let mut second = FileHost::new(&rt, alloc, path.as_str())?;
    let missing = make_calls(alloc, &mut second, FileNo::Db, &[Step::Len])?;
    let made = make_calls(
        alloc,
        &mut first,
        FileNo::Db,
        &[Step::Len, Step::Write(0, b"made")],
    )?;
    let locked = make_calls(alloc, &mut second, FileNo::Db, &ALL)?;
    let others = make_calls(
        alloc,
        &mut second,
        FileNo::Images,
        &[Step::Write(0, b"images")],
    )?;
    let other_locked = make_calls(alloc, &mut first, FileNo::Images, &[Step::Len])?;
    let left = fs::read(&rt, path.as_str())?;
    drop(first);
    let freed = make_calls(alloc, &mut second, FileNo::Db, &[Step::Read(0)])?;
    fs::remove_file(&rt, path.as_str())?;
    fs::remove_file(&rt, images.as_str())?;
    for (label, told, want) in [
        ("missing", &missing, &[Some(0)][..]),
        ("made", &made, &[Some(0), Some(0)]),
        ("locked", &locked, &[None; 5]),
        ("others", &others, &[Some(0)]),
        ("other locked", &other_locked, &[None]),
        ("freed", &freed, &[Some(4)]),
    ] {
        assert_eq!(rt; told.numbers.as_slice(), want, "{label}");
    }
    assert_eq!(rt; left.as_slice(), b"made".as_slice());
    assert_eq!(rt; freed.read.as_slice(), b"made".as_slice());
    Ok(())
}

/// What calls on both files of a host at this path answer, the database's first.
fn answers_at(rt: &HostRuntime, path: &str) -> Result<[Answers; 2], Fail> {
    let alloc = rt.alloc();
    let mut host = FileHost::new(rt, alloc, path)?;
    let db = make_calls(alloc, &mut host, FileNo::Db, &ALL)?;
    let images = make_calls(alloc, &mut host, FileNo::Images, &ALL)?;
    Ok([db, images])
}

/// Links lead to a file from one to the next, also to one that isn't there. A host on a link does nothing.
#[test]
fn links_lead_to_files(rt: HostRuntime) -> Result<(), Fail> {
    let alloc = rt.alloc();
    let folder = own_path(&rt, "links")?;
    let file = format!(in alloc; "{folder}/file")?;
    let first = format!(in alloc; "{folder}/first")?;
    let second = format!(in alloc; "{folder}/second")?;
    let round = format!(in alloc; "{folder}/round")?;
    fs::create_dir(&rt, folder.as_str())?;
    symlink(&rt, file.as_str(), second.as_str())?;
    symlink(&rt, "second", first.as_str())?;
    symlink(&rt, "round", round.as_str())?;
    let missing = without_links(&rt, alloc, first.as_str())?;
    fs::write(&rt, file.as_str(), b"there")?;
    let found = without_links(&rt, alloc, first.as_str())?;
    let [told, _] = answers_at(&rt, first.as_str())?;
    let left = fs::read(&rt, file.as_str())?;
    let circle = without_links(&rt, alloc, round.as_str())?;
    fs::remove_dir_all(&rt, folder.as_str())?;
    assert_eq!(rt; missing.as_str(), file.as_str());
    assert_eq!(rt; found.as_str(), file.as_str());
    assert_eq!(rt; circle.as_str(), round.as_str());
    assert_eq!(rt;
        without_links(&rt, alloc, file.as_str())?.as_str(),
        file.as_str()
    );
    let refused = [None, None, None, None, Some(0)];
    assert_eq!(rt; told.numbers.as_slice(), refused.as_slice());
    assert_eq!(rt; left.as_slice(), b"there".as_slice());
    Ok(())
}

/// One file at both paths of a host is refused, and an empty path leads nowhere.
#[test]
fn paths_that_lead_to_no_two_files(rt: HostRuntime) -> Result<(), Fail> {
    let path = own_path(&rt, "same")?;
    let images = format!(in rt.alloc(); "{path}.bi")?;
    fs::write(&rt, path.as_str(), b"there")?;
    fs::hard_link(&rt, path.as_str(), images.as_str())?;
    let same = answers_at(&rt, path.as_str())?;
    let nowhere = answers_at(&rt, "")?;
    let left = fs::read(&rt, path.as_str())?;
    fs::remove_file(&rt, path.as_str())?;
    fs::remove_file(&rt, images.as_str())?;
    for told in same {
        assert_eq!(rt; told.numbers.as_slice(), [None; 5].as_slice());
    }
    for told in nowhere {
        let want = [None, None, None, None, Some(0)];
        assert_eq!(rt; told.numbers.as_slice(), want.as_slice());
    }
    assert_eq!(rt; left.as_slice(), b"there".as_slice());
    Ok(())
}

/// A file that was moved away, or that another one took the place of, is not synced any more. Nor is one with a
/// second name.
#[test]
fn what_moved_away_is_not_synced(rt: HostRuntime) -> Result<(), Fail> {
    let alloc = rt.alloc();
    let path = own_path(&rt, "moved")?;
    let away = format!(in alloc; "{path}.away")?;
    let calls = [Step::Write(0, b"x"), Step::Sync];
    let mut host = FileHost::new(&rt, alloc, path.as_str())?;
    let stays = make_calls(alloc, &mut host, FileNo::Db, &calls)?;
    fs::rename(&rt, path.as_str(), away.as_str())?;
    let gone = make_calls(alloc, &mut host, FileNo::Db, &calls)?;
    symlink(&rt, away.as_str(), path.as_str())?;
    let linked = make_calls(alloc, &mut host, FileNo::Db, &calls)?;
    fs::remove_file(&rt, path.as_str())?;
    fs::copy(&rt, away.as_str(), path.as_str())?;
    let replaced = make_calls(alloc, &mut host, FileNo::Db, &calls)?;
    fs::rename(&rt, away.as_str(), path.as_str())?;
    let returned = make_calls(alloc, &mut host, FileNo::Db, &calls)?;
    drop(host);
    fs::hard_link(&rt, path.as_str(), away.as_str())?;
    let mut host = FileHost::new(&rt, alloc, path.as_str())?;
    let named_twice = make_calls(alloc, &mut host, FileNo::Db, &calls)?;
    fs::remove_file(&rt, path.as_str())?;
    fs::remove_file(&rt, away.as_str())?;
    for (label, told, want) in [
        ("stays", &stays, Some(0)),
        ("gone", &gone, None),
        ("linked", &linked, None),
        ("replaced", &replaced, None),
        ("returned", &returned, Some(0)),
        ("named twice", &named_twice, None),
    ] {
        assert_eq!(rt;
            told.numbers.as_slice(),
            [Some(0), want].as_slice(),
            "{label}"
        );
    }
    Ok(())
}
