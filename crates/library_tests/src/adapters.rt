use disk_face::Disk;
use outside_io::Sink;
use psa_status::Failed;
use std::fs::{self, File, OpenOptions};
use std::test::Fail;
use std::time::{SystemTime, UNIX_EPOCH};
use stream_adapters::{FileDisk, Writing};

#[test]
fn a_write_of_nothing_fails(rt: HostRuntime) {
    let mut room = [0; 2];
    let mut sink = Writing::new(room.as_mut_slice());
    assert!(rt; sink.write(b"abc") == Ok(2));
    assert!(rt; sink.write(b"c") == Err(Failed));
}

/// A new file without a name.
fn new_file(rt: &HostRuntime) -> Result<File, Fail> {
    let now = SystemTime::now(rt)?.duration_since(UNIX_EPOCH)?;
    let path = format!(in rt.alloc(); "disk_of_a_test.{}", now.as_nanos())?;
    let file = OpenOptions::new()
        .read(true)
        .write(true)
        .create_new(true)
        .open(rt, path.as_str())?;
    fs::remove_file(rt, path.as_str())?;
    Ok(file)
}

// A disk knows its length as it is asked for it. Meanwhile another program may lengthen the file.
#[test]
fn a_file_is_never_shortened(rt: HostRuntime) -> Result<(), Fail> {
    let file = new_file(&rt)?;
    file.set_len(4)?;
    let mut disk = FileDisk::new(file);
    assert!(rt; disk.extend(2) == Err(Failed));
    assert!(rt; disk.len() == Ok(4));
    assert!(rt; disk.extend(6) == Ok(()));
    assert!(rt; disk.len() == Ok(6));
    Ok(())
}
