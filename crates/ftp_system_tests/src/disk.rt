//! The storage and archive over a real directory, beside the one in memory.

use crate::calls::{Call, Row, answer, archive_answer, call_of, compare, draw};
use crate::same::same;
use ftp_base::{Bytes, Looks, MemoryStorage, Storage};
use ftp_disk::{Below, Budget, DiskStorage, Home, Homes, remove_leftovers, usage};
use ftp_extras::Archive;
use std::alloc::{AllocError, AllocGlobal, Global};
use std::fs::{File, Files, Permissions};
use std::os::unix::fs::{PermissionsExt, symlink};
use std::process::Abort;
use std::sync::{Arc, Wait};
use std::time::{Clock, Duration, UNIX_EPOCH};
use std::{env, fs, io, process};

/// A new directory for a test. In it stand `home`, which has a directory `d` with another one `e` in it, and a link to it.
pub(crate) fn make_base(rt: &HostRuntime, test: &str) -> io::Result<String> {
    let id = process::id(rt.process());
    let temp = env::temp_dir(rt)?;
    let base = format!(in rt.alloc(); "{}/ftp_disk_{test}_{id}", temp.as_str())?;
    for dir in ["", "/home", "/home/d", "/home/d/e"] {
        fs::create_dir(rt, format!(in rt.alloc(); "{base}{dir}")?.as_str())?;
    }
    symlink(rt, "home", format!(in rt.alloc(); "{base}/link")?.as_str())?;
    Ok(base)
}

/// Removes a base with all that stands in it.
pub(crate) fn remove<R: Files<File = File> + AllocGlobal + Abort>(rt: &R, base: &str) {
    fs::remove_dir_all(rt, base).expect(rt, "an end");
}

fn below(rt: &impl Abort, alloc: Global, root: &str, path: &str) -> String {
    format!(in alloc; "{root}{path}").expect(rt, "a path")
}

/// A file of a base.
pub(crate) fn write<R: Files<File = File> + Abort>(
    rt: &R,
    alloc: Global,
    base: &str,
    path: &str,
    bytes: &[u8],
) {
    let path = below(rt, alloc, base, path);
    fs::write(rt, path.as_str(), bytes).expect(rt, "a file");
}

/// The home of ann, who may write, and of bob, who may not. Carl comes to it by the link. They have one budget.
fn homes_within(
    alloc: Global,
    base: &str,
    budget: &Budget,
) -> Result<Arc<Homes, Global>, AllocError> {
    let mut homes = Homes::new(alloc);
    for (user, root, may_write) in [
        ("ann", "/home", true),
        ("bob", "/home", false),
        ("carl", "/link", false),
    ] {
        let home = Home {
            root: format!(in alloc; "{base}{root}")?,
            may_write,
            budget: budget.share()?,
        };
        homes.add(Vec::from_slice(alloc, user.as_bytes())?, home)?;
    }
    Ok(Arc::new(alloc, homes)?)
}

/// A storage over the homes of a base.
pub(crate) fn storage_within<R: Files<File = File> + Clock + Wait + Abort + Copy + Drop>(
    rt: R,
    alloc: Global,
    base: &str,
    budget: &Budget,
) -> DiskStorage<R, Below<R>> {
    let homes = homes_within(alloc, base, budget).expect(&rt, "homes");
    DiskStorage::new(rt, alloc, Below::new(rt), homes)
}

/// The same without a budget.
pub(crate) fn storage<R: Files<File = File> + Clock + Wait + Abort + Copy + Drop>(
    rt: R,
    alloc: Global,
    base: &str,
) -> DiskStorage<R, Below<R>> {
    storage_within(rt, alloc, base, &Budget::none())
}

/// How many bytes the home of a base holds.
fn held<R: Files<File = File> + Clock + Abort + Copy + Drop>(
    rt: R,
    alloc: Global,
    base: &str,
) -> u64 {
    let root = below(&rt, alloc, base, "/home");
    usage(&Below::new(rt), alloc, root.as_str()).expect(&rt, "a count")
}

/// A budget of so many bytes for the home of a base.
fn budget_of<R: Files<File = File> + Clock + Abort + Copy + Drop>(
    rt: R,
    alloc: Global,
    base: &str,
    most: u64,
) -> Budget {
    Budget::new(alloc, most, held(rt, alloc, base)).expect(&rt, "a budget")
}

/// Whether the files in memory are on disk.
fn is_same<R: Files<File = File> + AllocGlobal>(
    rt: &R,
    alloc: Global,
    base: &str,
    memory: &MemoryStorage,
) -> io::Result<bool> {
    for (path, bytes) in memory.files() {
        let path = String::from_utf8_lossy(alloc, path)?;
        let path = format!(in alloc; "{base}/home{path}")?;
        if fs::read(rt, path.as_str())?.as_slice() != bytes {
            return Ok(false);
        }
    }
    Ok(true)
}

/// Whether a call lists a file, which a directory shows by itself.
fn lists_a_file(rt: &impl Abort, memory: &mut MemoryStorage, alloc: Global, call: Call) -> bool {
    let user = Bytes::from_slice(alloc, b"ann").expect(rt, "a name");
    let path = Bytes::from_slice(alloc, call.path.as_bytes()).expect(rt, "a path");
    let is_file = match memory.metadata(&user, &path) {
        Ok(meta) => !meta.is_dir,
        Err(_) => false,
    };
    call.kind == 1 && is_file
}

/// What a storage, or a storage as an archive, answers to a call.
fn answer_as<A: Abort, S: Storage + Archive>(
    rt: &A,
    storage: &mut S,
    alloc: Global,
    is_archive: bool,
    call: Call,
) -> String {
    if is_archive {
        archive_answer(rt, storage, alloc, call)
    } else {
        answer(rt, storage, alloc, "ann", call)
    }
}

/// A storage in memory with the directories of a home.
fn memory_storage(rt: &impl Abort, alloc: Global) -> MemoryStorage {
    let mut memory = MemoryStorage::new(alloc, u64::MAX, Vec::new(alloc));
    for dir in ["/d", "/d/e"] {
        let dir = Bytes::from_slice(alloc, dir.as_bytes()).expect(rt, "a path");
        memory.mkdir(dir).expect(rt, "a directory");
    }
    memory
}

/// Compares the answers to a call, and the files behind it.
fn compare_call<R: Files<File = File> + AllocGlobal + Abort, S: Storage + Archive>(
    rt: &R,
    alloc: Global,
    base: &str,
    memory: &mut MemoryStorage,
    disk: &mut S,
    is_archive: bool,
    call: Call,
) {
    if !is_archive && lists_a_file(rt, memory, alloc, call) {
        return;
    }
    let due = answer_as(rt, memory, alloc, is_archive, call);
    let given = answer_as(rt, disk, alloc, is_archive, call);
    let asked = (call.kind, call.path, call.other);
    same(rt, &(asked, given.as_str()), &(asked, due.as_str()));
    let is_same = is_same(rt, alloc, base, memory).expect(rt, "files");
    same(rt, &is_same, &true);
}

#[test]
fn a_directory_answers_as_a_storage_in_memory(rt: HostRuntime) {
    for (test, is_archive, seed) in [("same", false, 7), ("archive", true, 11)] {
        let base = make_base(&rt, test).expect(&rt, "a base");
        let mut disk = storage(rt, rt.alloc(), base.as_str());
        let mut memory = memory_storage(&rt, rt.alloc());
        let mut state = seed;
        for _ in 0..400 {
            let call = draw(&mut state);
            compare_call(
                &rt,
                rt.alloc(),
                base.as_str(),
                &mut memory,
                &mut disk,
                is_archive,
                call,
            );
        }
        remove(&rt, base.as_str());
    }
}

/// Who calls, the kind, path and number of the call, and the answer that is due.
type UserRow = (&'static str, u64, &'static str, u8, &'static str);

/// Compares the answers of a storage to its users.
fn compare_users<A: Abort, S: Storage>(rt: &A, alloc: Global, storage: &mut S, rows: &[UserRow]) {
    for (user, kind, path, number, due) in rows {
        let call = Call {
            number: *number,
            ..call_of(*kind, path)
        };
        let given = answer(rt, storage, alloc, user, call);
        same(rt, &(*user, *path, given.as_str()), &(*user, *path, *due));
    }
}

const DENIED: &str = "Err(Kind(PermissionDenied))";

const LINKS_AND_STRANGERS: [UserRow; 11] = [
    ("ann", 0, "/passwd", 0, DENIED),
    ("ann", 3, "/passwd", 0, DENIED),
    ("ann", 4, "/passwd", 0, DENIED),
    ("ann", 1, "/d/etc", 0, DENIED),
    ("ann", 0, "/d/etc/passwd", 0, DENIED),
    (
        "ann",
        0,
        "/../../etc/passwd",
        0,
        "Err(Kind(PermanentFileNotAvailable))",
    ),
    (
        "ann",
        1,
        "/d/e/..//.",
        0,
        "Ok([FileInfo { name: Bytes { items: [101] }, meta: Meta { is_dir: true, len: 0 }, looks: None }])",
    ),
    ("bob", 3, "/b", 0, DENIED),
    ("bob", 4, "/b", 0, DENIED),
    (
        "carl",
        1,
        "/",
        0,
        "Ok([FileInfo { name: Bytes { items: [100] }, meta: Meta { is_dir: true, len: 0 }, looks: None }])",
    ),
    ("eve", 1, "/", 0, DENIED),
];

/// A link in a base to what stands outside.
fn link<R: Files<File = File> + Abort>(rt: &R, alloc: Global, base: &str, to: &str, path: &str) {
    let path = below(rt, alloc, base, path);
    symlink(rt, to, path.as_str()).expect(rt, "a link");
}

#[test]
fn links_strangers_and_readers_are_refused(rt: HostRuntime) {
    let base = make_base(&rt, "refused").expect(&rt, "a base");
    link(
        &rt,
        rt.alloc(),
        base.as_str(),
        "/etc/passwd",
        "/home/passwd",
    );
    link(&rt, rt.alloc(), base.as_str(), "/etc", "/home/d/etc");
    let mut storage = storage(rt, rt.alloc(), base.as_str());
    compare_users(&rt, rt.alloc(), &mut storage, &LINKS_AND_STRANGERS);
    remove(&rt, base.as_str());
}

const BUSY: &str = "Err(Kind(TransientFileNotAvailable))";

const TWO_UPLOADS: [Row; 2] = [(true, 3, "/b", 0, "Ok(())"), (false, 3, "/b", 0, BUSY)];

const ONE_UPLOAD: [UserRow; 1] = [("ann", 3, "/b", 0, "Ok(())")];

#[test]
fn a_path_has_one_upload_at_a_time(rt: HostRuntime) {
    let base = make_base(&rt, "busy").expect(&rt, "a base");
    let mut first = storage(rt, rt.alloc(), base.as_str());
    let mut second = storage(rt, rt.alloc(), base.as_str());
    compare(&rt, rt.alloc(), &mut first, &mut second, &TWO_UPLOADS);
    drop(first);
    compare_users(&rt, rt.alloc(), &mut second, &ONE_UPLOAD);
    remove(&rt, base.as_str());
}

const FULL: &str = "Err(Kind(ExceededStorageAllocationError))";

/// Four of ten bytes are taken. Each call appends three, or cuts a file at a place or fills it up to there.
const WITHIN_TEN: [Row; 11] = [
    (true, 3, "/a", 0, "Ok(())"),
    (false, 3, "/b", 0, "Ok(())"),
    (true, 4, "/a", 1, "Ok(())"),
    (false, 4, "/b", 2, "Ok(())"),
    (true, 4, "/a", 3, FULL),
    (false, 3, "/b", 4, FULL),
    (false, 3, "/c", 1, FULL),
    (false, 3, "/b", 1, "Ok(())"),
    (true, 4, "/a", 4, FULL),
    (true, 3, "/a", 1, "Ok(())"),
    (true, 4, "/a", 5, "Ok(())"),
];

#[test]
fn uploads_share_the_budget_of_a_home(rt: HostRuntime) {
    let alloc = rt.alloc();
    let base = make_base(&rt, "budget").expect(&rt, "a base");
    write(&rt, alloc, base.as_str(), "/home/d/old", b"1234");
    let budget = budget_of(rt, alloc, base.as_str(), 10);
    let mut first = storage_within(rt, alloc, base.as_str(), &budget);
    let mut second = storage_within(rt, alloc, base.as_str(), &budget);
    compare(&rt, alloc, &mut first, &mut second, &WITHIN_TEN);
    same(&rt, &held(rt, alloc, base.as_str()), &9);
    remove(&rt, base.as_str());
}

/// How the first file of a directory looks.
fn looks_in<A: Abort, S: Storage>(
    rt: &A,
    storage: &mut S,
    alloc: Global,
    dir: &[u8],
) -> Option<Looks> {
    let user = Bytes::from_slice(alloc, b"ann").expect(rt, "a name");
    let path = Bytes::from_slice(alloc, dir).expect(rt, "a path");
    let infos = storage.list(&user, &path).expect(rt, "a listing");
    let [info, ..] = infos.as_slice() else {
        panic!(rt; "nothing is listed");
    };
    info.looks
}

/// A file with this mode, last changed so many seconds after the first day of 1970 began.
fn make_looks(rt: &HostRuntime, path: &str, mode: u32, seconds: u32) -> io::Result<()> {
    let file = File::create(rt, path)?;
    file.set_permissions(Permissions::from_mode(mode))?;
    file.set_modified(UNIX_EPOCH + Duration::from_secs(u64::from(seconds)))
}

/// The 28th of November 2020, 13:57:09 UTC.
const LOOKS: Looks = Looks {
    mode: *b"rw-r-----",
    shown: *b"Nov 28  2020",
    modify: *b"20201128135709",
};

#[test]
fn a_listing_shows_the_mode_and_the_date(rt: HostRuntime) {
    let base = make_base(&rt, "looks").expect(&rt, "a base");
    let path = below(&rt, rt.alloc(), base.as_str(), "/home/d/a");
    make_looks(&rt, path.as_str(), 0o640, 1_606_571_829).expect(&rt, "a file");
    let mut storage = storage(rt, rt.alloc(), base.as_str());
    let looks = looks_in(&rt, &mut storage, rt.alloc(), b"/d");
    same(&rt, &looks, &Some(LOOKS));
    remove(&rt, base.as_str());
}

const REFUSED: &str = "Err(Kind(FileNameNotAllowedError))";

const OF_TWO_LINES: [UserRow; 3] = [
    (
        "ann",
        1,
        "/d/e",
        0,
        "Ok([FileInfo { name: Bytes { items: [97, 98] }, meta: Meta { is_dir: false, len: 1 }, looks: None }])",
    ),
    ("ann", 0, "/d/e/a\nb", 0, REFUSED),
    ("ann", 3, "/d/e/a\rb", 0, REFUSED),
];

#[test]
fn a_name_of_two_lines_is_in_no_listing(rt: HostRuntime) {
    let base = make_base(&rt, "lines").expect(&rt, "a base");
    for name in ["/home/d/e/a\nb", "/home/d/e/a\rb", "/home/d/e/ab"] {
        write(&rt, rt.alloc(), base.as_str(), name, b"1");
    }
    let mut storage = storage(rt, rt.alloc(), base.as_str());
    compare_users(&rt, rt.alloc(), &mut storage, &OF_TWO_LINES);
    remove(&rt, base.as_str());
}

/// A storage of whole uploads over the homes of a base.
fn whole_storage<R: Files<File = File> + Clock + Wait + Abort + Copy + Drop>(
    rt: R,
    alloc: Global,
    base: &str,
    budget: &Budget,
) -> DiskStorage<R, Below<R>> {
    storage_within(rt, alloc, base, budget).whole_uploads(true)
}

/// The file that stands at `/a`.
fn stands<R: Files<File = File> + AllocGlobal + Abort>(
    rt: &R,
    alloc: Global,
    base: &str,
) -> Vec<u8> {
    let path = below(rt, alloc, base, "/home/a");
    fs::read(rt, path.as_str()).expect(rt, "a file")
}

const BEGUN: [Row; 4] = [
    (true, 3, "/a", 0, "Ok(())"),
    (true, 4, "/a", b'x', "Ok(())"),
    (false, 3, "/a", 0, BUSY),
    (false, 4, "/a", b'y', BUSY),
];

/// An upload, its end, and three bytes behind it.
const ENDED: [UserRow; 4] = [
    ("ann", 3, "/a", 0, "Ok(())"),
    ("ann", 4, "/a", b'y', "Ok(())"),
    ("ann", 6, "/a", 0, "Ok(())"),
    ("ann", 4, "/a", b'a', "Ok(())"),
];

#[test]
fn a_whole_upload_takes_its_place_at_its_end(rt: HostRuntime) {
    let alloc = rt.alloc();
    let base = make_base(&rt, "whole").expect(&rt, "a base");
    write(&rt, alloc, base.as_str(), "/home/a", b"old");
    // It has room for two uploads of three, of which one takes the place of the other.
    let budget = budget_of(rt, alloc, base.as_str(), 8);
    let mut first = whole_storage(rt, alloc, base.as_str(), &budget);
    let mut second = whole_storage(rt, alloc, base.as_str(), &budget);
    compare(&rt, alloc, &mut first, &mut second, &BEGUN);
    same(
        &rt,
        &stands(&rt, alloc, base.as_str()).as_slice(),
        &b"old".as_slice(),
    );
    drop(first);
    same(&rt, &held(rt, alloc, base.as_str()), &3);
    compare_users(&rt, alloc, &mut second, &ENDED);
    same(
        &rt,
        &stands(&rt, alloc, base.as_str()).as_slice(),
        &b"yx{a`c".as_slice(),
    );
    remove(&rt, base.as_str());
}

/// Removes from the home of ann what killed uploads left there.
fn clear<R: Files<File = File> + Clock + Abort + Copy + Drop>(rt: R, alloc: Global, base: &str) {
    let homes = homes_within(alloc, base, &Budget::none()).expect(&rt, "homes");
    let ann = Bytes::from_slice(alloc, b"ann").expect(&rt, "a name");
    let home = homes.find(&ann).ok().expect(&rt, "a home");
    remove_leftovers(&Below::new(rt), alloc, home).expect(&rt, "no leftovers");
}

const LEFT: [UserRow; 2] = [
    ("ann", 1, "/d/e", 0, "Ok([])"),
    ("ann", 0, "/d/e/.ftp-upload-a", 0, REFUSED),
];

#[test]
fn what_a_killed_upload_left_is_hidden_and_removed(rt: HostRuntime) {
    let alloc = rt.alloc();
    let base = make_base(&rt, "left").expect(&rt, "a base");
    write(
        &rt,
        alloc,
        base.as_str(),
        "/home/d/e/.ftp-upload-a",
        b"part",
    );
    let mut storage = storage(rt, alloc, base.as_str());
    compare_users(&rt, alloc, &mut storage, &LEFT);
    same(&rt, &held(rt, alloc, base.as_str()), &4);
    clear(rt, alloc, base.as_str());
    same(&rt, &held(rt, alloc, base.as_str()), &0);
    remove(&rt, base.as_str());
}
