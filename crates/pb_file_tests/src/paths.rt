//! Paths that can't be a device: each call fails, and nothing else changes.
use crate::run::{Row, call, count_names, length, make_folder};
use pb_file::FileDev;
use pb_pmem::{Line, Pmem};
use std::fs;
use std::fs::Files;
use std::process::Abort;

const FOLDER: &str = "pb_file_tests_paths";

const BAD: [&str; 9] = [
    "",
    "pb_file_tests_paths",
    "pb_file_tests_paths/",
    "pb_file_tests_paths/short/below",
    "pb_file_tests_paths/absent/below",
    "pb_file_tests_paths/short",
    "pb_file_tests_paths/long",
    "pb_file_tests_paths/empty",
    "pb_file_tests_paths/link",
];

// Under `run` lines are judged behind the opening, and under `fresh` before the device is called.
const CALLS: [Row<'static>; 5] = [
    ("report", "", "device fault\n", 6),
    ("run", "0 1 get 0\n", "device fault\n", 6),
    ("run", "x\n", "device fault\n", 6),
    ("fresh map 1 4", "0 1 get 0\n", "device fault\n", 6),
    ("fresh map 1 4", "x\n", "line 1\n", 3),
];

fn make_files(rt: &(impl Abort + Files + AllocGlobal)) {
    make_folder(rt, FOLDER);
    let bytes = [7u8; 131_073];
    fs::write(rt, "pb_file_tests_paths/short", &bytes[..131_071]).expect(rt, "a short file");
    fs::write(rt, "pb_file_tests_paths/long", &bytes[..]).expect(rt, "a long file");
    fs::write(rt, "pb_file_tests_paths/empty", "").expect(rt, "an empty file");
    rt.symlink("nowhere", "pb_file_tests_paths/link")
        .expect(rt, "a link to nothing");
}

#[test]
fn other_paths_are_left_as_they_are(rt: HostRuntime) {
    make_files(&rt);
    for path in &BAD {
        for row in &CALLS {
            let device = FileDev::new(&rt, path).expect(&rt, "memory");
            call(&rt, rt.alloc(), device, row);
        }
    }
    assert_eq!(rt; length(&rt, "pb_file_tests_paths/short"), 131_071u64);
    assert_eq!(rt; length(&rt, "pb_file_tests_paths/long"), 131_073u64);
    assert_eq!(rt; length(&rt, "pb_file_tests_paths/empty"), 0u64);
    assert_eq!(rt; count_names(&rt, FOLDER), 4usize);
    fs::remove_dir_all(&rt, FOLDER).expect(&rt, "the folder");
}

const REFUSED: &str = "pb_file_tests_refused";

// A script with one request line more than it may have.
fn too_many_lines(rt: &(impl Abort + AllocGlobal)) -> String {
    let mut lines = String::new(rt.alloc());
    for _ in 0..32_769u32 {
        lines.push_str("0 1 get 0\n").expect(rt, "memory");
    }
    lines
}

#[test]
fn a_call_that_is_refused_before_makes_no_file(rt: HostRuntime) {
    make_folder(&rt, REFUSED);
    let many = too_many_lines(&rt);
    for row in [
        ("run", many.as_str(), "many\n", 3),
        ("fresh map 1 4", many.as_str(), "many\n", 3),
        ("fresh map 1 4", "x\n", "line 1\n", 3),
        ("run now", "", "usage\n", 2),
    ] {
        let device = FileDev::new(&rt, "pb_file_tests_refused/region").expect(&rt, "memory");
        call(&rt, rt.alloc(), device, &row);
    }
    assert_eq!(rt; count_names(&rt, REFUSED), 0usize);
    fs::remove_dir_all(&rt, REFUSED).expect(&rt, "the folder");
}

const LATER: &str = "pb_file_tests_later";

// Each failing call counts, and one that finds the folder made goes on.
#[test]
fn the_next_call_tries_again(rt: HostRuntime) {
    let _ = fs::remove_dir_all(&rt, LATER);
    let mut device = FileDev::new(&rt, "pb_file_tests_later/region").expect(&rt, "memory");
    let mut line = Line::default();
    assert!(rt; device.read(0, &mut line).is_err());
    assert!(rt; device.write(0, &line).is_err());
    assert!(rt; device.set_word(0, 0, 1).is_err());
    assert!(rt; device.write_back(0, 1).is_err());
    assert!(rt; device.fence().is_err());
    assert!(rt; device.sync().is_err());
    assert_eq!(rt; device.faults(), 6u64);
    make_folder(&rt, LATER);
    assert!(rt; device.set_word(5, 1, 8).is_ok());
    assert!(rt; device.read(5, &mut line).is_ok());
    assert!(rt; line.words[1] == 8);
    assert_eq!(rt; device.faults(), 6u64);
    drop(device);
    fs::remove_dir_all(&rt, LATER).expect(&rt, "the folder");
}
