//! A disk over memory.
use crate::runs::line;
use devdry_files::{
    Disk, DiskFault, DiskNode, MemoryDisk, MemoryEntry, MemoryPlace, ReadFault, read_all, wanted,
};
use engine_sessions::Verb;
use std::alloc::Global;
use std::test::Fail;
use text_bytes::SourceFile;

const ENTRIES: [MemoryEntry; 4] = [
    MemoryEntry {
        name: "b.rules",
        is_folder: false,
    },
    MemoryEntry {
        name: "a.rules",
        is_folder: true,
    },
    MemoryEntry {
        name: "a.hwdb",
        is_folder: false,
    },
    MemoryEntry {
        name: ".rules",
        is_folder: false,
    },
];

/// The entries of a folder of links.
const LINKS: [MemoryEntry; 4] = [
    MemoryEntry {
        name: "a.rules",
        is_folder: false,
    },
    MemoryEntry {
        name: "b.rules",
        is_folder: false,
    },
    MemoryEntry {
        name: "c.rules",
        is_folder: false,
    },
    MemoryEntry {
        name: "d.rules",
        is_folder: false,
    },
];

/// An entry that is a link to itself.
const LOOP: [MemoryEntry; 1] = [MemoryEntry {
    name: "loop.rules",
    is_folder: false,
}];

/// A folder of which nothing is listed.
const EMPTY: DiskNode = DiskNode::Folder(&[]);

const PLACES: [MemoryPlace; 34] = [
    MemoryPlace {
        path: "/r/etc",
        disk_node: EMPTY,
    },
    MemoryPlace {
        path: "/r/etc/udev",
        disk_node: EMPTY,
    },
    MemoryPlace {
        path: "/r/etc/udev/rules.d",
        disk_node: DiskNode::Folder(&ENTRIES),
    },
    MemoryPlace {
        path: "/r/etc/udev/rules.d/b.rules",
        disk_node: DiskNode::File(b"B"),
    },
    MemoryPlace {
        path: "/r/etc/udev/rules.d/a.rules",
        disk_node: EMPTY,
    },
    MemoryPlace {
        path: "/r/etc/udev/rules.d/.rules",
        disk_node: DiskNode::File(b"dot"),
    },
    MemoryPlace {
        path: "/s/run",
        disk_node: EMPTY,
    },
    MemoryPlace {
        path: "/s/run/udev",
        disk_node: EMPTY,
    },
    MemoryPlace {
        path: "/s/run/udev/rules.d",
        disk_node: DiskNode::Unreadable,
    },
    MemoryPlace {
        path: "/t/usr",
        disk_node: EMPTY,
    },
    MemoryPlace {
        path: "/t/usr/lib",
        disk_node: EMPTY,
    },
    MemoryPlace {
        path: "/t/usr/lib/udev",
        disk_node: EMPTY,
    },
    MemoryPlace {
        path: "/t/usr/lib/udev/rules.d",
        disk_node: DiskNode::Folder(&ENTRIES),
    },
    MemoryPlace {
        path: "/i/etc",
        disk_node: EMPTY,
    },
    MemoryPlace {
        path: "/i/etc/udev",
        disk_node: EMPTY,
    },
    MemoryPlace {
        path: "/i/etc/udev/rules.d",
        disk_node: DiskNode::Link("/usr/lib/udev/rules.d"),
    },
    MemoryPlace {
        path: "/i/etc/a",
        disk_node: DiskNode::File(b"A"),
    },
    MemoryPlace {
        path: "/i/usr",
        disk_node: EMPTY,
    },
    MemoryPlace {
        path: "/i/usr/lib",
        disk_node: EMPTY,
    },
    MemoryPlace {
        path: "/i/usr/lib/udev",
        disk_node: EMPTY,
    },
    MemoryPlace {
        path: "/i/usr/lib/udev/rules.d",
        disk_node: DiskNode::Folder(&LINKS),
    },
    MemoryPlace {
        path: "/i/usr/lib/udev/rules.d/a.rules",
        disk_node: DiskNode::Link("/etc/a"),
    },
    MemoryPlace {
        path: "/i/usr/lib/udev/rules.d/b.rules",
        disk_node: DiskNode::Link("../../../../../../etc/a"),
    },
    MemoryPlace {
        path: "/i/usr/lib/udev/rules.d/c.rules",
        disk_node: DiskNode::Link("/dev/null"),
    },
    MemoryPlace {
        path: "/i/usr/lib/udev/rules.d/d.rules",
        disk_node: DiskNode::Link("/etc/udev"),
    },
    MemoryPlace {
        path: "/etc/a",
        disk_node: DiskNode::File(b"host"),
    },
    MemoryPlace {
        path: "/usr/lib/udev/rules.d",
        disk_node: DiskNode::Folder(&LOOP),
    },
    MemoryPlace {
        path: "/usr/lib/udev/rules.d/loop.rules",
        disk_node: DiskNode::File(b"host"),
    },
    MemoryPlace {
        path: "/l/etc",
        disk_node: EMPTY,
    },
    MemoryPlace {
        path: "/l/etc/udev",
        disk_node: EMPTY,
    },
    MemoryPlace {
        path: "/l/etc/udev/rules.d",
        disk_node: DiskNode::Folder(&LOOP),
    },
    MemoryPlace {
        path: "/l/etc/udev/rules.d/loop.rules",
        disk_node: DiskNode::Link("loop.rules"),
    },
    MemoryPlace {
        path: "/o/etc",
        disk_node: DiskNode::File(b""),
    },
    MemoryPlace {
        path: "/o/usr",
        disk_node: DiskNode::Link(".."),
    },
];

const DISK: MemoryDisk = MemoryDisk { places: &PLACES };

/// The files that a check of all rules below a root reads from the disk.
fn read(alloc: Global, root: &str) -> Result<Vec<SourceFile>, ReadFault> {
    let mut line = line(alloc, Verb::Verify, "");
    line.root = root;
    let wanted = wanted(alloc, &line)?;
    read_all(alloc, &DISK, &wanted)
}

/// Whether a file has this name and these bytes.
fn is_file(file: Option<&SourceFile>, name: &[u8], bytes: &[u8]) -> bool {
    match file {
        Some(file) => file.name.as_slice() == name && file.bytes.as_slice() == bytes,
        None => false,
    }
}

/// Whether the files that it holds are read in the order of their names, folders and other files left out.
fn files_are_read(alloc: Global) -> Result<bool, ReadFault> {
    let files = read(alloc, "/r")?;
    Ok(
        files.len() == 2
            && is_file(files.first(), b".rules", b"dot")
            && is_file(files.last(), b"b.rules", b"B")
            && read(alloc, "/absent")?.is_empty(),
    )
}

/// Whether a check below a root fails at this path.
fn fails_at(alloc: Global, root: &str, path: &str) -> bool {
    match read(alloc, root) {
        Err(ReadFault::Path(found)) => found.as_str() == path,
        _ => false,
    }
}

/// Whether links are followed inside a root alone: to its own files, and no further up than to itself. A link to the
/// null device is an empty file, and one to a folder is none.
fn links_stay_inside(alloc: Global) -> Result<bool, ReadFault> {
    let files = read(alloc, "/i")?;
    let own = files
        .iter()
        .filter(|file| file.bytes.as_slice() == b"A".as_slice())
        .count();
    let empty = files
        .iter()
        .filter(|file| file.bytes.as_slice().is_empty())
        .count();
    Ok(files.len() == 6 && own == 4 && empty == 2)
}

/// Whether a path is neither listed nor read, for these reasons.
fn has_no_answer(alloc: Global, path: &str, unlisted: DiskFault, unread: DiskFault) -> bool {
    DISK.list(alloc, path).err() == Some(unlisted) && DISK.read(alloc, path).err() == Some(unread)
}

#[test]
fn a_disk_answers_what_it_holds(rt: HostRuntime) -> Result<(), Fail> {
    let alloc = rt.alloc();
    assert!(rt; files_are_read(alloc)?);
    assert!(rt; links_stay_inside(alloc)?);
    assert!(rt; fails_at(alloc, "/l", "/l/etc/udev/rules.d/loop.rules"));
    assert!(rt; fails_at(alloc, "/o", "/o/etc/udev/rules.d"));
    assert!(rt; fails_at(alloc, "/s", "/s/run/udev/rules.d"));
    assert!(rt; fails_at(alloc, "/t", "/t/usr/lib/udev/rules.d/.rules"));
    assert!(rt; has_no_answer(alloc, "/r", DiskFault::Absent, DiskFault::Absent));
    let unreadable = "/s/run/udev/rules.d";
    assert!(rt;
        has_no_answer(
            alloc,
            unreadable,
            DiskFault::Unreadable,
            DiskFault::Unreadable
        )
    );
    let file = "/r/etc/udev/rules.d/b.rules";
    assert!(rt; DISK.list(alloc, file).err() == Some(DiskFault::Unreadable));
    let folder = "/r/etc/udev/rules.d";
    assert!(rt; DISK.read(alloc, folder).err() == Some(DiskFault::Unreadable));
    Ok(())
}
