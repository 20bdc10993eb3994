//! Which calls of the file a device makes, in which order, and that each one that fails is a fault.
use crate::noted::{Call, Name, NotedFiles, Notes, PATH, WHOLE};
use pb_file::FileDev;
use pb_pmem::{Line, Pmem};
use std::process::Abort;

/// A number of no call.
const NONE: usize = usize::MAX;

fn device_over<'a>(rt: &(impl Abort + AllocGlobal), notes: &'a Notes) -> FileDev<NotedFiles<'a>> {
    FileDev::new(&NotedFiles::new(rt.alloc(), notes), PATH).expect(rt, "memory")
}

/// How a file that is absent is begun: under its other name, where nothing else may stand.
const BEGINNING: [Call; 3] = [
    Call::Open(Name::Region),
    Call::Remove(Name::Beside),
    Call::CreateNew(Name::Beside),
];

/// How many writes make it whole.
const ZEROS: usize = 32;

/// How it gets its own name, once the disk has the whole.
const NAMING: [Call; 3] = [
    Call::SyncAll(Name::Beside),
    Call::Link(Name::Beside, Name::Region),
    Call::Remove(Name::Beside),
];

/// How a file that is there is opened.
const OPENING: [Call; 5] = [
    Call::Open(Name::Region),
    Call::Length(Name::Region),
    Call::SyncAll(Name::Region),
    Call::Open(Name::Folder),
    Call::SyncAll(Name::Folder),
];

/// How many calls make a file and open it.
const MAKING: usize = 43;

#[test]
fn an_absent_file_is_whole_before_it_has_its_name(rt: HostRuntime) {
    let notes = Notes::new(None, NONE);
    let mut device = device_over(&rt, &notes);
    assert!(rt; device.write_back(0, 1).is_ok());
    assert!(rt; device.faults() == 0);
    assert!(rt; notes.count() == MAKING);
    assert!(rt; notes.have(0, &BEGINNING));
    for nth in 0..ZEROS {
        assert!(rt; notes.have(3 + nth, &[Call::Write(4096)]));
    }
    assert!(rt; notes.have(35, &NAMING));
    assert!(rt; notes.have(38, &OPENING));
}

/// Lets one call fail while a file is made, and then makes the device's call again.
fn make_with_failing(rt: &(impl Abort + AllocGlobal), failing: usize) {
    let notes = Notes::new(None, failing);
    let mut device = device_over(rt, &notes);
    let is_fault = failing != 1 && failing != 37;
    assert!(rt; device.write_back(0, 1).is_err() == is_fault, "{failing}");
    assert!(rt; device.faults() == u64::from(is_fault), "{failing}");
    if is_fault {
        let removes = usize::from(failing >= 2 && failing <= 36);
        assert!(rt;
            notes.count().saturating_sub(removes) == failing.saturating_add(1),
            "{failing}"
        );
    }
    assert!(rt; device.write_back(0, 1).is_ok(), "{failing}");
    assert!(rt; device.faults() == u64::from(is_fault), "{failing}");
}

// Where a call fails nothing is done after it, but that the other name is removed. That this fails isn't counted.
#[test]
fn each_failing_call_of_making_is_a_fault(rt: HostRuntime) {
    for failing in 0..MAKING {
        make_with_failing(&rt, failing);
    }
}

#[test]
fn a_file_of_another_length_is_refused(rt: HostRuntime) {
    for length in [0, WHOLE - 1, WHOLE + 1] {
        let notes = Notes::new(Some(length), NONE);
        let mut device = device_over(&rt, &notes);
        assert!(rt; device.fence().is_err());
        assert!(rt; device.faults() == 1);
        assert!(rt; notes.count() == 2);
        assert!(rt; notes.have(0, &[Call::Open(Name::Region), Call::Length(Name::Region)]));
    }
}

/// What a round over ten adjacent lines and an index word calls.
const ROUND: [Call; 6] = [
    Call::Seek(576),
    Call::Write(640),
    Call::SyncData(Name::Region),
    Call::Seek(64),
    Call::Write(8),
    Call::SyncData(Name::Region),
];

/// Makes a round's calls, and tells which of them failed: the writes, giving these, the fence, the index word, giving it,
/// and the sync.
fn make_round(device: &mut impl Pmem) -> [bool; 6] {
    let line = Line { words: [7; 8] };
    let mut failed = false;
    for nth in 9..19u32 {
        failed |= device.write(nth, &line).is_err();
    }
    [
        failed,
        device.write_back(9, 10).is_err(),
        device.fence().is_err(),
        device.set_word(1, 0, 1).is_err(),
        device.write_back(1, 1).is_err(),
        device.sync().is_err(),
    ]
}

#[test]
fn a_round_writes_twice_and_waits_twice(rt: HostRuntime) {
    let notes = Notes::new(Some(WHOLE), NONE);
    let mut device = device_over(&rt, &notes);
    assert!(rt; make_round(&mut device) == [false; 6]);
    assert!(rt; device.faults() == 0);
    assert!(rt; notes.count() == 11);
    assert!(rt; notes.have(0, &OPENING));
    assert!(rt; notes.have(5, &ROUND));
}

/// Which call of the device fails where a call of the file does.
const FAILING: [usize; 11] = [0, 0, 0, 0, 0, 1, 1, 2, 3, 3, 5];

#[test]
fn each_failing_call_of_a_round_fails_the_call_that_made_it(rt: HostRuntime) {
    for (failing, place) in FAILING.iter().enumerate() {
        let notes = Notes::new(Some(WHOLE), failing);
        let mut device = device_over(&rt, &notes);
        let failed = make_round(&mut device);
        for (nth, has_failed) in failed.iter().enumerate() {
            assert!(rt; *has_failed == (nth == *place), "{failing}");
        }
        assert!(rt; device.faults() == 1, "{failing}");
    }
}

#[test]
fn what_is_held_back_leaves_before_a_read_and_at_64_lines(rt: HostRuntime) {
    let notes = Notes::new(Some(WHOLE), NONE);
    let mut device = device_over(&rt, &notes);
    let mut line = Line { words: [7; 8] };
    for nth in 0..65u32 {
        assert!(rt; device.write(nth, &line).is_ok());
    }
    assert!(rt; notes.count() == 7);
    assert!(rt; notes.have(5, &[Call::Seek(0), Call::Write(4096)]));
    assert!(rt; device.read(9, &mut line).is_ok());
    assert!(rt; notes.count() == 11);
    let reading = [
        Call::Seek(4096),
        Call::Write(64),
        Call::Seek(576),
        Call::Read(64),
    ];
    assert!(rt; notes.have(7, &reading));
}

#[test]
fn a_line_that_is_not_next_lets_those_before_it_leave(rt: HostRuntime) {
    let notes = Notes::new(Some(WHOLE), NONE);
    let mut device = device_over(&rt, &notes);
    let line = Line { words: [7; 8] };
    assert!(rt; device.write(3, &line).is_ok());
    assert!(rt; notes.count() == 5);
    assert!(rt; device.write(7, &line).is_ok());
    assert!(rt; notes.count() == 7);
    assert!(rt; notes.have(5, &[Call::Seek(192), Call::Write(64)]));
}
