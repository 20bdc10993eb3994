//! Scripts over a file that stays: what is asked again is answered again, and a gap is told.
use crate::run::{Row, call, count_names, length, make_folder};
use pb_file::FileDev;
use pb_pmem::{Line, Pmem};
use std::fs;
use std::process::Abort;

const FOLDER: &str = "pb_file_tests_rows";

const PATH: &str = "pb_file_tests_rows/region";

const FIRST: &str = "0 1 put 3 77\n0 2 get 3\n";

const ROWS: [Row<'static>; 7] = [
    ("report", "", "none\n", 7),
    (
        "fresh map 1 4",
        FIRST,
        "0 1 new was 0 1\n0 2 new is 77 1\n",
        0,
    ),
    ("run", FIRST, "0 1 kept was 0 1\n0 2 kept is 77 1\n", 0),
    ("run", "0 4 get 3\n0 5 get 3\n", "0 4 gap\n0 5 left\n", 8),
    ("run", "0 2 put 3 1\n", "0 2 changed\n", 8),
    (
        "report",
        "",
        "kind map\nclients 1\nsize 4\nrounds 2\nclient 0 2 get 3 is 77 1\nregisters 1\nregister 3 77 1\n",
        0,
    ),
    ("fresh map 1 4", FIRST, "taken\n", 7),
];

#[test]
fn what_is_asked_again_is_answered_again(rt: HostRuntime) {
    make_folder(&rt, FOLDER);
    // What a program left that was killed while it made the file.
    fs::write(&rt, "pb_file_tests_rows/region.being-made", "left").expect(&rt, "a file");
    for row in &ROWS {
        let device = FileDev::new(&rt, PATH).expect(&rt, "memory");
        call(&rt, rt.alloc(), device, row);
    }
    assert_eq!(rt; length(&rt, PATH), 131_072u64);
    assert_eq!(rt; count_names(&rt, FOLDER), 1usize);
    fs::remove_dir_all(&rt, FOLDER).expect(&rt, "the folder");
}

const LINES_FOLDER: &str = "pb_file_tests_lines";

const LINES_PATH: &str = "pb_file_tests_lines/region";

// A line whose words are this number and those behind it.
fn line_from(first: u64) -> Line {
    let mut words = [first; 8];
    for (place, word) in words.iter_mut().enumerate() {
        *word = word.wrapping_add(place as u64);
    }
    Line { words }
}

fn is_line(rt: &impl Abort, device: &mut impl Pmem, line: u32, wanted: &Line) -> bool {
    assert!(rt; line < 2048);
    let mut found = Line::default();
    device.read(line, &mut found).expect(rt, "a read");
    found == *wanted
}

#[test]
fn lines_come_back_from_the_file(rt: HostRuntime) {
    make_folder(&rt, LINES_FOLDER);
    let mut device = FileDev::new(&rt, LINES_PATH).expect(&rt, "memory");
    for line in 0..200u32 {
        device
            .write(line, &line_from(u64::from(line) << 40))
            .expect(&rt, "a write");
    }
    device.write(2047, &line_from(7)).expect(&rt, "a write");
    device.set_word(2047, 7, u64::MAX).expect(&rt, "a word");
    device.write(2046, &line_from(9)).expect(&rt, "a write");
    device.sync().expect(&rt, "a sync");
    drop(device);
    let mut again = FileDev::new(&rt, LINES_PATH).expect(&rt, "memory");
    for line in 0..200u32 {
        assert!(rt;
            is_line(&rt, &mut again, line, &line_from(u64::from(line) << 40)),
            "{line}"
        );
    }
    let mut last = line_from(7);
    last.words[7] = u64::MAX;
    assert!(rt; is_line(&rt, &mut again, 2047, &last));
    assert!(rt; is_line(&rt, &mut again, 2046, &line_from(9)));
    assert!(rt; is_line(&rt, &mut again, 200, &Line::default()));
    assert_eq!(rt; again.faults(), 0u64);
    assert_eq!(rt; length(&rt, LINES_PATH), 131_072u64);
    drop(again);
    fs::remove_dir_all(&rt, LINES_FOLDER).expect(&rt, "the folder");
}

const WORDS_FOLDER: &str = "pb_file_tests_words";

const WORDS_PATH: &str = "pb_file_tests_words/region";

#[test]
fn a_word_stands_at_its_place_lowest_byte_first(rt: HostRuntime) {
    make_folder(&rt, WORDS_FOLDER);
    let mut device = FileDev::new(&rt, WORDS_PATH).expect(&rt, "memory");
    device
        .set_word(3, 1, 0x0102_0304_0506_0708)
        .expect(&rt, "a word");
    device.write(2, &line_from(1)).expect(&rt, "a write");
    device.write_back(2, 1).expect(&rt, "a write back");
    let bytes = fs::read(&rt, WORDS_PATH).expect(&rt, "the file");
    assert!(rt; bytes.len() == 131_072);
    assert!(rt; bytes[128..136] == [1, 0, 0, 0, 0, 0, 0, 0]);
    assert!(rt; bytes[184..192] == [8, 0, 0, 0, 0, 0, 0, 0]);
    assert!(rt; bytes[192..208] == [0, 0, 0, 0, 0, 0, 0, 0, 8, 7, 6, 5, 4, 3, 2, 1]);
    drop(device);
    fs::remove_dir_all(&rt, WORDS_FOLDER).expect(&rt, "the folder");
}
