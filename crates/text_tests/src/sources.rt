//! Tests of what no clause says: that files are read and written where memory is left, and whole.

use poet_io::{
    Bytes, Files, HostFolder, HostOut, MemFolder, MemSink, MemSource, NeverSink, OpenError,
    ReadAllError, Use, put, read_all,
};
use std::alloc::Global;
use std::fs;
use std::test::Fail;

const LONG: [u8; 5000] = [b'x'; 5000];

/// Whether the last use of the folder's files is this one.
fn last_closed(folder: &MemFolder, name: &[u8], left: &[u8], failed: bool) -> bool {
    match folder.last_use() {
        Some(Use::Closed(its, rest, has_failed)) => {
            its.as_slice() == name && rest.as_slice() == left && *has_failed == failed
        }
        _ => false,
    }
}

fn last_refused(folder: &MemFolder, name: &[u8]) -> bool {
    match folder.last_use() {
        Some(Use::Refused(its)) => its.as_slice() == name,
        _ => false,
    }
}

#[derive(Clone, Copy, Debug, PartialEq, Eq)]
enum NotRead {
    Open(OpenError),
    Read(ReadAllError),
}

/// Opens a file, reads it whole and gives it back.
fn read_file<F: Files>(
    alloc: Global,
    files: &mut F,
    name: &str,
    limit: u64,
) -> Result<Bytes, NotRead> {
    let mut source = files.open(alloc, name).map_err(NotRead::Open)?;
    let bytes = read_all(alloc, &mut source, limit);
    files.close(source);
    bytes.map_err(NotRead::Read)
}

#[test]
fn a_source_is_read_whole_or_refused(rt: HostRuntime) -> Result<(), Fail> {
    let alloc = rt.alloc();
    let cases: [(&[u8], &[u64], u64, Option<ReadAllError>); 12] = [
        (b"", &[], 0, None),
        (b"abc", &[], 3, None),
        (b"abc", &[], 2, Some(ReadAllError::TooLong)),
        (b"abc", &[], 0, Some(ReadAllError::TooLong)),
        (b"abc", &[1], 3, Some(ReadAllError::Failed)),
        (b"abc", &[2], 3, Some(ReadAllError::Failed)),
        (b"abc", &[3], 3, None),
        (&LONG, &[], 5000, None),
        (&LONG, &[], 4999, Some(ReadAllError::TooLong)),
        (&LONG, &[2], 4096, Some(ReadAllError::Failed)),
        (&LONG, &[3], 5000, Some(ReadAllError::Failed)),
        (&LONG, &[4], 5000, None),
    ];
    for (bytes, fail_at, limit, refusal) in cases {
        let mut source = MemSource::new(Bytes::new(bytes.to_vec(alloc)?), fail_at.to_vec(alloc)?);
        let answer = match read_all(alloc, &mut source, limit) {
            Ok(all) => {
                assert_eq!(rt; all.as_slice(), bytes);
                None
            }
            Err(e) => Some(e),
        };
        assert_eq!(rt;
            answer,
            refusal,
            "of {} bytes with limit {limit}",
            bytes.len()
        );
    }
    Ok(())
}

#[test]
fn a_sink_takes_all_or_a_prefix(rt: HostRuntime) -> Result<(), Fail> {
    let alloc = rt.alloc();
    let cases: [(&[u64], usize, usize, &[u8]); 6] = [
        (&[], 1, 4, b"abcd"),
        (&[], 3, 9, b"abcd"),
        (&[1], 1, 4, b""),
        (&[3], 1, 4, b"ab"),
        (&[2], 3, 4, b"abc"),
        (&[], 1, 3, b"abc"),
    ];
    for (fail_at, most, room, taken) in cases {
        assert!(rt; most > 0);
        let mut sink = MemSink::new(alloc, fail_at.to_vec(alloc)?, most, room)?;
        let all_taken = put(&mut sink, b"abcd").is_ok();
        assert_eq!(rt; sink.bytes(), taken);
        assert_eq!(rt;
            all_taken,
            taken.len() == 4,
            "with room for {room}, {most} at a time"
        );
        assert_eq!(rt; sink.into_bytes().as_slice(), taken);
    }
    put(&mut NeverSink, b"abcd")?;
    Ok(())
}

#[test]
fn a_folder_opens_its_files(rt: HostRuntime) -> Result<(), Fail> {
    let alloc = rt.alloc();
    let mut folder = MemFolder::new(alloc);
    assert!(rt; folder.last_use().is_none());
    folder.add("a", b"one", &[])?;
    assert_eq!(rt;
        read_file(alloc, &mut folder, "a", 9)?.as_slice(),
        b"one".as_slice()
    );
    assert!(rt; last_closed(&folder, b"a", b"", false));
    folder.add("a", b"two", &[])?;
    assert_eq!(rt;
        read_file(alloc, &mut folder, "a", 9)?.as_slice(),
        b"two".as_slice()
    );
    folder.add("broken", b"three", &[1])?;
    let broken = read_file(alloc, &mut folder, "broken", 9).err();
    assert_eq!(rt; broken, Some(NotRead::Read(ReadAllError::Failed)));
    assert!(rt; last_closed(&folder, b"broken", b"three", true));
    let long = read_file(alloc, &mut folder, "a", 2).err();
    assert_eq!(rt; long, Some(NotRead::Read(ReadAllError::TooLong)));
    assert!(rt; last_closed(&folder, b"a", b"", false));

    let absent = read_file(alloc, &mut folder, "b", 9).err();
    assert_eq!(rt; absent, Some(NotRead::Open(OpenError::Absent)));
    folder.fail_open("b")?;
    folder.fail_open("a")?;
    for name in ["a", "b"] {
        let failed = read_file(alloc, &mut folder, name, 9).err();
        assert_eq!(rt; failed, Some(NotRead::Open(OpenError::Failed)), "at {name}");
        assert!(rt; last_refused(&folder, name.as_bytes()), "at {name}");
    }
    Ok(())
}

#[test]
fn a_file_of_the_system_is_read(rt: HostRuntime) -> Result<(), Fail> {
    let alloc = rt.alloc();
    fs::write(&rt, "whole", &LONG)?;
    let mut folder = HostFolder::new(&rt);
    let bytes = read_file(alloc, &mut folder, "whole", 5000)?;
    assert_eq!(rt; bytes.as_slice(), LONG.as_slice());
    fs::remove_file(&rt, "whole")?;
    let absent = read_file(alloc, &mut folder, "whole", 5000).err();
    assert_eq!(rt; absent, Some(NotRead::Open(OpenError::Failed)));
    put(&mut HostOut::new(&rt), b"written\n")?;
    Ok(())
}
