//! What to do behind a status, for whoever ran the program.
use pb_broker::Status;

const COMMANDS: &str = "pbcomb: the commands are\n\
    \x20 pbcomb DEVICE fresh KIND CLIENTS SIZE   make a region, and run the script on standard input\n\
    \x20 pbcomb DEVICE run                       run the script on the region that is there\n\
    \x20 pbcomb DEVICE report                    print what the region holds\n\
    \x20 pbcomb DEVICE replay KIND CLIENTS SIZE  play the schedule on standard input through the protocol\n\
    \x20 pbcomb DEVICE drill SEED CLIENTS COUNT  make a map, run a script made from the seed on it, and print sums\n\
    KIND is map, stack, heap or queue, CLIENTS is 1 to 16, SIZE is 1 to 1024, and CLIENTS times COUNT is 1 to 32768.\n\
    DEVICE is the path of a file, which is made where it is absent, or - for a trial device that is gone at the end.\n\
    At the top of the repository the program is ./pbcomb.";

/// What a status means and what may be done, in a few lines. Nothing behind `Done`.
pub fn advice(status: Status) -> &'static str {
    match status {
        Status::Done => "",
        Status::OutOfMemory =>
            "pbcomb: memory ran out. No request was applied: run it again with more memory.",
        Status::Usage => COMMANDS,
        Status::Refused => {
            "pbcomb: no request was applied. `line N`: line N of standard input, blank lines and comments counted, is no\n\
            request of this kind, or its number isn't the next one of its client; or it is no event of a schedule, or one\n\
            that can't happen then. `many`: the script has more than 32768 request lines, or the schedule more than 4096\n\
            event lines. `long`: it has more than 4194304 bytes."
        }
        Status::ReadFault =>
            "pbcomb: standard input couldn't be read. No request was applied: run it again.",
        Status::WriteFault => {
            "pbcomb: standard output couldn't be written. Requests may be applied all the same: give the same script to `run`,\n\
            and each is answered, and none is applied twice. What a drill left `report` prints; a report may be printed again."
        }
        Status::DeviceFault => {
            "pbcomb: a call of the device failed. `doubt`: the request may be applied or not. Give the same script to `run`,\n\
            and each request is answered, and none is applied twice. `device fault` at once: the file can't be opened, read, made\n\
            or synced, or hasn't 131072 bytes. Of a drill the sums count what is known for sure."
        }
        Status::Unusable => {
            "pbcomb: no request was applied. `none`: the device has no region; `fresh` makes one. `taken`: it has one; `run`\n\
            goes on with it, or says where it is damaged. `damaged L`: line L of its region isn't as the format wants it."
        }
        Status::Misnumbered => {
            "pbcomb: `gap`: the client left out a number; ask with the one after its last. `changed`: another operation was\n\
            asked for under this number; ask with a new one. `left`: its later requests weren't tried."
        }
    }
}
