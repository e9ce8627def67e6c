// Files: a new file beside the old one, renamed over it only when all of it is on disk.
use crate::say::{ERR, Streams, put, put_bytes};
use std::fmt::InlineText;
use std::fs::{OpenFile, OpenOptions};
use std::io::{ErrorKind, Read, Write};
use std::rt::Files;
use std::{fs, io};

// What the system says of an error, without the number that std puts behind it.
fn reason(text: &str) -> &str {
    match text.split_once(" (os error ") {
        Some((words, _)) => words,
        None => text,
    }
}

// Says what a call on a file was refused for. Its name need not be text.
pub fn fail(rt: &impl Streams, name: &[u8], why: io::Error) {
    let text = InlineText::<256>::of(why);
    put(rt, ERR, "station: ");
    put_bytes(rt, ERR, name);
    put(rt, ERR, format_args!(": {}\n", reason(text.as_str())));
}

// Says why the file beside cannot be made.
pub fn fail_beside(rt: &impl Streams, beside: &str, why: io::Error) {
    fail(rt, beside.as_bytes(), why);
    if why.kind() == ErrorKind::AlreadyExists {
        put(
            rt,
            ERR,
            "station: another save is under way, or one was broken off and left that file: remove it then\n",
        );
    }
}

fn has_more(file: &mut impl Read) -> bool {
    // fixed: one byte tells whether there is more
    let mut one = [0u8; 1];
    file.read(&mut one).is_ok_and(|n| n > 0)
}

// The bytes that a file fills the room with in one read; none where it has more.
pub fn read<'a, R: Files>(rt: &R, path: &str, room: &'a mut [u8]) -> io::Result<Option<&'a [u8]>> {
    let mut file = fs::open(rt, path)?;
    let n = file.read(room)?;
    if has_more(&mut file) {
        Ok(None)
    } else {
        Ok(Some(&room[..n]))
    }
}

// A new file to write. A name that is taken is refused.
pub fn create<R: Files>(rt: &R, path: &str) -> io::Result<R::File> {
    OpenOptions::new()
        .write(true)
        .create_new(true)
        .open(rt, path)
}

// Whether all the bytes are in the file, on disk. Why not is said before the file is closed.
fn is_whole<F: OpenFile + Write + Drop>(
    rt: &impl Streams,
    mut file: F,
    path: &str,
    bytes: &[u8],
) -> bool {
    let written = file.write_all(bytes).and_then(|()| file.sync_all());
    if let Err(why) = written {
        fail(rt, path.as_bytes(), why);
    }
    written.is_ok()
}

// Whether a new file has these bytes. Why not is said, and then nothing is left of one that could not be
// written whole.
pub fn is_filled<R: Streams + Files>(rt: &R, file: R::File, path: &str, bytes: &[u8]) -> bool {
    if is_whole(rt, file, path, bytes) {
        return true;
    }
    let _ = fs::remove_file(rt, path);
    false
}

// Whether the file beside took the place of the old one. If not, it says why, and then the file beside goes.
pub fn is_swapped<R: Streams + Files>(rt: &R, path: &str, beside: &str) -> bool {
    if let Err(why) = fs::rename(rt, beside, path) {
        fail(rt, path.as_bytes(), why);
        let _ = fs::remove_file(rt, beside);
        return false;
    }
    true
}
